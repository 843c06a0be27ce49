// Arguments of elements passed over: where one ends, by the word of bits that it begins with. No value is read and no record told.
#![tactic(auto)]

ghost use Rattle.std.specs.Prelude.{◌≡◌, ◌+◌, ◌^◌, ◌≤◌, ◌<◌, length};
ghost use Rattle.field_ranges.specs.Ranges.{width_of};
ghost use Rattle.ample_bits.specs.Ahead.{Ahead};
ghost use Rattle.argument_values.specs.Arguments.{argument_body};
ghost use Rattle.passed_arguments.specs.Passed.{Passed, PassedRow, PassedName, PassedTriple};

use ample_bits::{behind, first};
use field_ranges::table::{
    CLEARANCE_TYPE, CODE_DIGIT, DEGREES_0, ERROR_INFORMATION, FACILITY_FUNCTION, FREQUENCY_0,
    LEVEL_0, RUNWAY, RUNWAY_SIDE, Range, SPEED_0, SPEED_TYPE, TRAFFIC_TYPE, range_at,
};
use places::{pass_departure, pass_pair, pass_position, pass_procedure};

mod places; // places.rt: coordinates, positions, procedures and departures

// A kind, and a number of that kind's range. The ranges of the kinds stand in a row of the table, from `row` on; behind them the end is not known.
fn pass_quantity(v: u64, at: usize, wide: usize, row: usize, kinds: u64) -> usize
    requires { (1 ≤ wide) × (wide ≤ 8) × (row + kinds ≤ 58) × (at < 2 ^ 60) }
    ensures { (result ≡ 0 → ⊥) → PassedRow v at wide row kinds result }
{
    let kind = first(v, wide);
    if kinds <= kind {
        return 0;
    }
    let range = range_at(row + kind as usize);
    at + wide + range.width()
}

// A name of the range with an extension marker. What is above the last name is badly formed.
fn pass_name(v: u64, at: usize, range: Range) -> usize
    requires { (range.lo ≡ 0) × (1 ≤ width_of range) × (width_of range ≤ 14) × (at < 2 ^ 60) }
    ensures { (result ≡ 0 → ⊥) → PassedName v at range.hi result }
{
    if first(v, 1) != 0 {
        return at + 1;
    }
    let wide = range.width();
    if range.extent() < first(behind(v, 1), wide) {
        return 0;
    }
    at + 1 + wide
}

// Three speed types, one behind another.
fn pass_triple(v: u64, at: usize) -> usize
    requires { at < 2 ^ 59 }
    ensures { (result ≡ 0 → ⊥) → PassedTriple v at result }
{
    let p = pass_name(v, at, SPEED_TYPE);
    if p == 0 {
        return 0;
    }
    let a = behind(v, p - at);
    let q = pass_name(a, p, SPEED_TYPE);
    if q == 0 {
        return 0;
    }
    pass_name(behind(a, q - p), q, SPEED_TYPE)
}

// An end so far off is not told.
const FAR: usize = 161;

fn unless_far(p: usize, at: usize) -> usize
    requires { at < 2 ^ 60 }
    ensures { (result ≡ 0 → ⊥) → (result ≡ p) × (result ≤ at + 160) }
{
    if p < at + FAR {
        return p;
    }
    0
}

// By the byte of the lent table. At 0 the end is not known.
pub fn pass_argument(s: &[u8], v: u64, at: usize, byte: u8) -> usize
    requires { (8 ≤ length s.now) × (at < 2 ^ 59) × Ahead s.now at 45 v }
    ensures { (result ≡ 0 → ⊥) → Passed (argument_body byte) s.now at result }
{
    match byte {
        0 => at,
        1 => pass_position(s, v, at),
        2 => pass_quantity(v, at, 3, SPEED_0.row, 7),
        3 => pass_name(v, at, SPEED_TYPE),
        4 => pass_triple(v, at),
        5 => pass_quantity(v, at, 2, LEVEL_0.row, 4),
        6 => pass_quantity(v, at, 1, DEGREES_0.row, 2),
        7 => pass_quantity(v, at, 2, FREQUENCY_0.row, 3),
        8 => at + 4 * CODE_DIGIT.width(),
        9 => pass_name(v, at, TRAFFIC_TYPE),
        10 => pass_name(v, at, CLEARANCE_TYPE),
        11 => pass_name(v, at, ERROR_INFORMATION),
        12 => pass_name(v, at, FACILITY_FUNCTION),
        13 => unless_far(pass_procedure(s, v, at), at),
        14 => at + RUNWAY.width() + RUNWAY_SIDE.width(),
        15 => pass_pair(v, at),
        16 => unless_far(pass_departure(s, v, at), at),
        _ => 0,
    }
}
