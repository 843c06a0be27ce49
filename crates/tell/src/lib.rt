// Texts told: their characters are read where they stand in the frame, and put into the lent words eight to a record.
#![tactic(auto)]

ghost use Rattle.std.specs.Prelude.{◌≡◌, ◌+◌, ◌-◌, ◌*◌, ◌<◌, ◌≤◌, ◌^◌};
ghost use Rattle.x691.specs.Bits.{bit_of};
ghost use Rattle.atn.specs.Reading.{octets, units, none_above};
ghost use Rattle.character_strings.specs.Texts.{text_recs, channel_recs, InFrame};
ghost use Rattle.records.specs.Told.{Told};

use character_strings::Text;
use characters::{Run, tell_run};
use per::number::wide;
use records::emit;
use spread::top_sevens;

mod characters; // characters.rt: characters by where they stand, whatever their alphabet
pub mod spread; // spread.rt: characters of fewer bits, put into octets

// A text of seven-bit characters. It has a loop of its own, in which the compiler knows the width.
pub fn tell_text(words: &mut [u64], n: usize, tag: u64, element: u64, s: &[u8], x: Text) -> usize
    requires { (n < 2 ^ 31) × (x.len < 512) × InFrame 7 s.now x }
    ensures { Told 64 words.old words.new n result (text_recs tag element s.now x) }
{
    let mut m = n;
    for i in (0..x.len).step_by(8) {
        let v = sevens(s, x, i);
        m = emit(words, m, tag, element, v, x.len as u64, x.from);
    }
    m
}

// The eight characters from i on as one number, the first in the highest octet, and zero for each that is missing.
fn sevens(s: &[u8], x: Text, i: usize) -> u64
    requires { (i < x.len) × InFrame 7 s.now x }
    ensures { result ≡ octets 8 (units (bit_of s.now) 7 (x.at + i * 7) (x.len - i)) }
{
    let k = (x.len - i).min(8);
    top_sevens(wide(s, x.at + i * 7, k * 7), k)
}

// The characters of a satellite channel, of four bits each: as the source has them, where raw 0 is the digit 0, and behind that with a tag of its own as X.680 has them, where raw 0 is the space and 10 the last digit.
pub fn tell_channel(
    words: &mut [u64],
    n: usize,
    tag: u64,
    x691: u64,
    element: u64,
    s: &[u8],
    x: Text,
) -> usize
    requires { (n ≤ 2 ^ 30) × (x.len ≤ 12) × InFrame 4 s.now x }
    ensures { Told 4 words.old words.new n result (channel_recs tag x691 element s.now x) }
{
    let digits = Run {
        from: x.from,
        at: x.at,
        len: x.len,
        width: 4,
        first: 48,
        spaced: false,
    };
    let m = tell_run(words, n, tag, element, s, digits);
    if none_above_ten(s, x) {
        let numerals = Run {
            from: x.from,
            at: x.at,
            len: x.len,
            width: 4,
            first: 48,
            spaced: true,
        };
        return tell_run(words, m, x691, element, s, numerals);
    }
    m
}

// Whether X.680 has a character for each.
fn none_above_ten(s: &[u8], x: Text) -> bool
    requires { (x.len ≤ 12) × InFrame 4 s.now x }
    ensures { result ≡ none_above 10 (units (bit_of s.now) 4 x.at x.len) }
{
    for i in 0..x.len {
        if wide(s, x.at + i * 4, 4) > 10 {
            return false;
        }
    }
    true
}
