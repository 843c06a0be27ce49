// Coordinates, positions, procedures and departures passed over.
ghost use Rattle.std.specs.Prelude.{◌≡◌, ◌^◌, ◌≤◌, ◌<◌, length};
ghost use Rattle.atn.specs.Messages as message;
ghost use Rattle.ample_bits.specs.Ahead.{Ahead};
ghost use Rattle.passed_arguments.specs.Passed.{Within, PassedAngle, PassedPair, procedure_argument};

use ample_bits::{behind, first, rest};
use field_ranges::table::{
    AIRPORT_SIZE, FIX_SIZE, FLIGHT_SIZE, HUNDREDTHS, LATITUDE_DEGREES, LATITUDE_THOUSANDTHS,
    LONGITUDE_DEGREES, LONGITUDE_THOUSANDTHS, MINUTES, PROCEDURE, PROCEDURE_SIZE, SIDE,
    TRANSITION_SIZE,
};

// The bits of the form of an angle, of which there are three.
const FORM: usize = 2;

// The bits of the kind of a position, of which there are five.
const KIND: usize = 3;

// The bits of a character.
const CHARACTER: usize = 7;

// The bits of an angle, by those of its thousandths and of its degrees. Of a form that is not listed they are not known.
fn angle_bits(v: u64, wide: usize, narrow: usize) -> usize
    requires { (wide ≤ 18) × (narrow ≤ 8) }
    ensures { (result ≤ 24) × ((result ≡ 0 → ⊥) → PassedAngle v wide narrow result) }
{
    let form = first(v, FORM);
    if form == 0 {
        return FORM + wide + SIDE.width();
    }
    if form == 1 {
        return FORM + narrow + HUNDREDTHS.width() + SIDE.width();
    }
    if form == 2 {
        return FORM + narrow + 2 * MINUTES.width() + SIDE.width();
    }
    0
}

// Latitude and longitude, each of which may be absent.
pub fn pass_pair(v: u64, at: usize) -> usize
    requires { at < 2 ^ 61 }
    ensures { (result ≡ 0 → ⊥) → PassedPair v at result }
{
    let has = first(v, 2);
    let mut a = behind(v, 2);
    let mut p = at + 2;
    if 2 <= has {
        let n = angle_bits(a, LATITUDE_THOUSANDTHS.width(), LATITUDE_DEGREES.width());
        if n == 0 {
            return 0;
        }
        a = behind(a, n);
        p = p + n;
    }
    if has % 2 == 0 {
        return p;
    }
    let n = angle_bits(a, LONGITUDE_THOUSANDTHS.width(), LONGITUDE_DEGREES.width());
    if n == 0 {
        return 0;
    }
    p + n
}

// A name by its kind, 0 for a fix and 1 for a navaid, with coordinates or without; an airport; coordinates alone. Any other kind is not listed.
pub fn pass_position(s: &[u8], v: u64, at: usize) -> usize
    requires { (8 ≤ length s.now) × (at < 2 ^ 60) × Ahead s.now at 45 v }
    ensures { (result ≡ 0 → ⊥) → Within 13 113 message.position s.now at result }
{
    let kind = first(v, KIND);
    let a = behind(v, KIND);
    let p = at + KIND;
    if kind == 2 {
        return p + AIRPORT_SIZE.lo as usize * CHARACTER;
    }
    if kind == 3 {
        return pass_pair(a, p);
    }
    if 3 < kind {
        return 0;
    }
    // the size of a navaid's name takes one bit less than that of a fix's
    let wide = FIX_SIZE.width() - kind as usize;
    let size = first(behind(a, 1), wide) as usize + FIX_SIZE.lo as usize;
    let q = p + 1 + wide + size * CHARACTER;
    if first(a, 1) == 0 {
        return q;
    }
    pass_pair(rest(s, q), q)
}

// A procedure: its kind, its name, and its transition, which may be absent. A kind above the last is badly formed.
pub fn pass_procedure(s: &[u8], v: u64, at: usize) -> usize
    requires { (8 ≤ length s.now) × (at < 2 ^ 59) × Ahead s.now at 45 v }
    ensures { (result ≡ 0 → ⊥) → Within 6 291 procedure_argument s.now at result }
{
    let wide = PROCEDURE.width();
    let long = PROCEDURE_SIZE.width();
    let a = behind(v, 1);
    if PROCEDURE.hi < first(a, wide) {
        return 0;
    }
    let size = first(behind(a, wide), long) as usize + PROCEDURE_SIZE.lo as usize;
    let p = at + 1 + wide + long + size * CHARACTER;
    if first(v, 1) == 0 {
        return p;
    }
    let short = TRANSITION_SIZE.width();
    let more = first(rest(s, p), short) as usize + TRANSITION_SIZE.lo as usize;
    p + short + more * CHARACTER
}

// A flight and a position. Where one of the parts stands that are not read, the end is not known.
pub fn pass_departure(s: &[u8], v: u64, at: usize) -> usize
    requires { (8 ≤ length s.now) × (at < 2 ^ 59) × Ahead s.now at 45 v }
    ensures { (result ≡ 0 → ⊥) → Within 15 181 message.departure_clearance s.now at result }
{
    if first(v, 2) != 0 {
        return 0;
    }
    let wide = FLIGHT_SIZE.width();
    let size = first(behind(v, 2), wide) as usize + FLIGHT_SIZE.lo as usize;
    let p = at + 2 + wide + size * CHARACTER;
    pass_position(s, rest(s, p), p)
}
