// The header of a message whose bits are all ahead, at the top of a word: read and told at once.
#![tactic(auto)]

ghost use Rattle.std.specs.Prelude.{List, ℕ, ◌+◌, ◌/◌, ◌^◌, ◌≤◌, ◌<◌, length};
ghost use Rattle.x691.specs.Bits.{bit_of, uint};
ghost use Rattle.field_ranges.specs.Ranges.{width_of};
ghost use Rattle.records.specs.Space.{space};
ghost use Rattle.ample_bits.specs.Ahead.{Ahead};
ghost use Rattle.ample_readings.specs.Ample.{Done, DoneFields, Fixed};
ghost use Rattle.ample_headers.specs.Header.{three, bits, timed, header};

use ample_bits::{ahead, behind, first};
use ample_readings::{Step, read_ranged};
use cpdlc_tags::LOGICAL_ACK;
use field_ranges::table::{DAY, HOURS, MINUTES, MONTH, MSG_ID, Range, SIDE, YEAR};
use records::store;

// Three numbers from the greatest unit to the least, whose tags follow one another: year, month and day, or hours, minutes and seconds.
fn read_three(
    words: &mut [u64],
    n: usize,
    v: u64,
    at: usize,
    tag: u64,
    great: Range,
    middle: Range,
    small: Range,
) -> Step
    requires { (n < 2 ^ 31) × (space (n + 3) ≤ length words.old) × (at < 2 ^ 61) × (tag < 256) × (1 ≤ width_of great) × (1 ≤ width_of middle) × (1 ≤ width_of small) × (bits great middle small ≤ 57) }
    ensures { Fixed 3 (bits great middle small) (three tag great middle small) v at n words.old words.new result }
{
    let a = behind(v, great.width());
    let b = behind(a, middle.width());
    let x = read_ranged(words, n, v, at, tag, great);
    let y = read_ranged(words, x.n, a, x.at, tag + 1, middle);
    let z = read_ranged(words, y.n, b, y.at, tag + 2, small);
    Step {
        at: z.at,
        n: z.n,
        marks: x.marks | (y.marks | z.marks),
    }
}

// The date and time, and the logical acknowledgment; where that is not there, 1 is told.
fn read_timed(words: &mut [u64], n: usize, v: u64, at: usize, has: u64) -> Step
    requires { (n < 2 ^ 30) × (space (n + 7) ≤ length words.old) × (at < 2 ^ 60) }
    ensures { (s : List ℕ) → Ahead s at 34 v → DoneFields 7 34 (timed has) s at n words.old words.new result }
{
    let x = read_three(words, n, v, at, cpdlc_tags::YEAR, YEAR, MONTH, DAY);
    let a = behind(v, x.at - at);
    let y = read_three(
        words,
        x.n,
        a,
        x.at,
        cpdlc_tags::HOURS,
        HOURS,
        MINUTES,
        MINUTES,
    );
    let marks = x.marks | y.marks;
    if has == 0 {
        let m = store(words, y.n, LOGICAL_ACK, 0, 1, 0, y.at);
        return Step {
            at: y.at,
            n: m,
            marks: marks,
        };
    }
    let b = behind(a, y.at - x.at);
    let z = read_ranged(words, y.n, b, y.at, LOGICAL_ACK, SIDE);
    Step {
        at: z.at,
        n: z.n,
        marks: marks | z.marks,
    }
}

// The header of a message: its presence bits, at `at`, and what they say is there.
pub fn read_header(s: &[u8], words: &mut [u64], n: usize, at: usize) -> Step
    requires { (n < 2 ^ 29) × (space (n + 9) ≤ length words.old) × (at < 2 ^ 59) × (at / 8 + 8 ≤ length s.now) }
    ensures { Done 9 46 (header (uint (bit_of s.now) at 2)) s.now (at + 2) n words.old words.new result }
{
    let v = ahead(s, at);
    let has = first(v, 2);
    let a = behind(v, 2);
    let x = read_ranged(words, n, a, at + 2, cpdlc_tags::MSG_ID, MSG_ID);
    let wide = MSG_ID.width();
    let b = behind(a, wide);
    if has < 2 {
        let y = read_timed(words, x.n, b, x.at, has);
        return Step {
            at: y.at,
            n: y.n,
            marks: x.marks | y.marks,
        };
    }
    let y = read_ranged(words, x.n, b, x.at, cpdlc_tags::MSG_REF, MSG_ID);
    let z = read_timed(words, y.n, behind(b, wide), y.at, has - 2);
    Step {
        at: z.at,
        n: z.n,
        marks: x.marks | (y.marks | z.marks),
    }
}
