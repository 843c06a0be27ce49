// Readings that have all their bits ahead of them, and room for all their records: nothing is asked again for each field.
#![tactic(auto)]

ghost use Rattle.std.specs.Prelude.{◌≡◌, ℕ, ◌+◌, ◌^◌, ◌<◌, ◌≤◌, length};
ghost use Rattle.x691.specs.Types.{extent};
ghost use Rattle.x691.specs.Encoding.{width};
ghost use Rattle.atn.specs.Format.{num};
ghost use Rattle.atn.specs.Reading.{over};
ghost use Rattle.field_ranges.specs.Ranges.{width_of};
ghost use Rattle.records.specs.Space.{space};
ghost use Rattle.ample_readings.specs.Ample.{Fixed};

use ample_bits::first;
use field_ranges::table::Range;
use records::store;

// Where a reading has come to: the next bit, the number of records, and its marks. At 0 it was given up, and says nothing: the same is then read field by field.
#[derive(Clone, Copy)]
pub struct Step {
    pub at: usize,
    pub n: usize,
    pub marks: u64,
}

// Mark 1, if the number is above the most.
pub fn above(v: u64, most: u64) -> u64
    ensures { result ≡ over most v }
{
    if v <= most {
        return 0;
    }
    1
}

pub fn given_up() -> Step
    ensures { result.at ≡ 0 }
{
    Step {
        at: 0,
        n: 0,
        marks: 0,
    }
}

// A number at the top of a word, by its lowest, how much its highest is above that, and the bits that this takes: read, and told behind n records.
pub fn read_number(
    words: &mut [u64],
    n: usize,
    v: u64,
    at: usize,
    tag: u64,
    lo: u64,
    most: u64,
    wide: usize,
) -> Step
    requires { (n < 2 ^ 32) × (space (n + 1) ≤ length words.old) × (at < 2 ^ 62) × (1 ≤ wide) × (wide ≤ 64) }
    ensures { (hi : ℕ) → extent lo hi ≡ most → width most ≡ wide → Fixed 1 wide (num tag lo hi) v at n words.old words.new result }
{
    let raw = first(v, wide);
    let value = std::num::wrapping_add_u64(lo, raw);
    let m = store(words, n, tag, 0, value, 0, at);
    let marks = above(raw, most);
    Step {
        at: at + wide,
        n: m,
        marks: marks,
    }
}

// A number of the range.
pub fn read_ranged(words: &mut [u64], n: usize, v: u64, at: usize, tag: u64, range: Range) -> Step
    requires { (n < 2 ^ 32) × (space (n + 1) ≤ length words.old) × (at < 2 ^ 62) × (1 ≤ width_of range) }
    ensures { Fixed 1 (width_of range) (num tag range.lo range.hi) v at n words.old words.new result }
{
    let most = range.extent();
    let wide = range.width();
    read_number(words, n, v, at, tag, range.lo, most, wide)
}
