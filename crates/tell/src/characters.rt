// Characters by where they stand, whatever their alphabet.
ghost use Rattle.std.specs.Prelude.{◌≡◌, ◌+◌, ◌/◌, ◌<◌, ◌^◌};
ghost use Rattle.atn.specs.Reading.{octets, pack};
ghost use Rattle.records.specs.Told.{Told};
ghost use Rattle.tell.specs.Characters.{Spelt, counted, from};

use super::spread::spread;
use numeric_strings::spaced_eight;
use per::number::wide;
use records::emit;

// Where the field starts; the place of the first character's bit, the number of characters, the bits of each, and the code of the first of the alphabet; whether they are told as X.680 has the characters of a NumericString.
#[derive(Clone, Copy)]
pub struct Run {
    pub from: usize,
    pub at: usize,
    pub len: usize,
    pub width: usize,
    pub first: u64,
    pub spaced: bool,
}

// A one in each octet.
const ONES: u64 = 0x0101_0101_0101_0101;

// All characters, eight to a record, with their number as the second number.
pub fn tell_run(words: &mut [u64], n: usize, tag: u64, element: u64, s: &[u8], r: Run) -> usize
    requires { (n < 2 ^ 31) × (r.len < 512) × Spelt s.now r }
    ensures { Told ((r.len + 7) / 8) words.old words.new n result (pack tag element r.from (from s.now r 0)) }
{
    let mut m = n;
    for i in (0..r.len).step_by(8) {
        let v = told(s, r, i);
        m = emit(words, m, tag, element, v, r.len as u64, r.from);
    }
    m
}

// The eight characters from i on as one number, as they are told.
fn told(s: &[u8], r: Run, i: usize) -> u64
    requires { (i < r.len) × Spelt s.now r }
    ensures { result ≡ octets 8 (from s.now r i) }
{
    let v = eight(s, r, i);
    if r.spaced {
        return spaced_eight(v);
    }
    v
}

// The eight characters from i on as one number, the first in the highest octet, and zero for each that is missing. Their codes count from the first one's.
fn eight(s: &[u8], r: Run, i: usize) -> u64
    requires { (i < r.len) × Spelt s.now r }
    ensures { result ≡ octets 8 (counted s.now r i) }
{
    let width = r.width;
    let k = (r.len - i).min(8);
    let v = spread(wide(s, r.at + i * width, k * width), width);
    // the codes count from `first`, and the octets of the characters that are missing come last
    let missing = 64 - 8 * k;
    (v + r.first * (ONES >> missing)) << missing
}
