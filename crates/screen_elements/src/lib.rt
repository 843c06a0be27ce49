// The line of an element: its phrase, with the brackets filled from its argument's records.
#![tactic(auto)]

ghost use Rattle.std.specs.Prelude.{◌≡◌, ◌+◌, ◌*◌, ◌^◌, ◌≤◌, ◌<◌, length};
ghost use Rattle.element_kinds.specs.Kinds.{byte, byte_of};
ghost use Rattle.screen_bytes.specs.Put.{Put};
ghost use Rattle.phrases.specs.Phrases.{fill};
ghost use Rattle.record_views.specs.View.{records_from};
ghost use Rattle.screen_elements.specs.Lines.{argument, value_count, values, element_line};

use element_kinds::Kind;
use phrases::first_bracket;
use screen_bytes::put_text;
use screen_coordinates::put_coordinates;
use screen_positions::{put_departure, put_position};
use screen_values::{
    put_code, put_degrees, put_enumeration, put_frequency, put_level, put_procedure, put_runway,
    put_speed,
};

const SPEED_TYPES: &[u8] =
    b"NONE\nINDICATED\nTRUE\nGROUND\nMACH\nAPPROACH\nCRUISE\nMINIMUM\nMAXIMUM\n";

const TRAFFIC_TYPES: &[u8] =
    b"NONE\nOPPOSITE DIRECTION\nSAME DIRECTION\nCONVERGING\nCROSSING\nDIVERGING\n";

const CLEARANCE_TYPES: &[u8] =
    b"NONE\nAPPROACH\nDEPARTURE\nFURTHER\nSTART-UP\nPUSHBACK\nTAXI\nTAKE-OFF\nLANDING\nOCEANIC\nEN-ROUTE\nDOWNSTREAM\n";

const ERROR_INFORMATION: &[u8] =
    b"UNRECOGNIZED MSG REFERENCE NUMBER\nLOGICAL ACKNOWLEDGMENT NOT ACCEPTED\nINSUFFICIENT RESOURCES\nINVALID MESSAGE ELEMENT COMBINATION\nINVALID MESSAGE ELEMENT\n";

const FACILITY_FUNCTIONS: &[u8] =
    b"CENTER\nAPPROACH\nTOWER\nFINAL\nGROUND\nDELIVERY\nDEPARTURE\nCONTROL\nRADIO\n";

// The line of an element of which the argument's records start at record `first`, without its line feed.
pub fn put_element_line(
    words: &[u64],
    first: usize,
    kind: Option<Kind>,
    phrase: &[u8],
    out: &mut [u8],
    at: usize,
) -> usize
    requires { (first < 2 ^ 48) × (at < 2 ^ 48) × (length phrase.now < 2 ^ 48) }
    ensures { Put (length phrase.now + 1024) out.old out.new at result (element_line phrase.now (byte_of kind) (records_from first words.now)) }
{
    match kind {
        Some(kind) => {
            let n = value_count(kind);
            put_filled(out, at, words, first, kind, n, phrase)
        }
        None => put_text(out, at, phrase),
    }
}

// How many values fill brackets.
fn value_count(kind: Kind) -> usize
    ensures { (result ≡ value_count (byte kind)) × (result ≤ 3) }
{
    match kind {
        Kind::ThreeSpeedTypes => 3,
        _ => 1,
    }
}

// A phrase of which n brackets are still to be filled, the next from the records from record i on.
fn put_filled(
    out: &mut [u8],
    at: usize,
    words: &[u64],
    i: usize,
    kind: Kind,
    n: usize,
    phrase: &[u8],
) -> usize
    requires { (n ≤ 3) × (i + n < 2 ^ 50) × (at + length phrase.now + n * 276 < 2 ^ 50) }
    ensures { Put (length phrase.now + n * 276) out.old out.new at result (fill (values n (byte kind) (records_from i words.now)) phrase.now) }
{
    if n == 0 {
        return put_text(out, at, phrase);
    }
    let bracket = first_bracket(phrase);
    match bracket.closes {
        Some(closes) => {
            let a = put_text(out, at, &phrase[..bracket.opens]);
            let b = put_argument(out, a, words, i, kind);
            put_filled(out, b, words, i + 1, kind, n - 1, &phrase[closes + 1..])
        }
        None => put_text(out, at, phrase),
    }
}

// The text of a value.
fn put_argument(out: &mut [u8], at: usize, words: &[u64], i: usize, kind: Kind) -> usize
    requires { (at < 2 ^ 50) × (i < 2 ^ 50) }
    ensures { Put 276 out.old out.new at result (argument (byte kind) (records_from i words.now)) }
{
    match kind {
        Kind::Position => put_position(out, at, words, i),
        Kind::Speed => put_speed(out, at, words, i),
        Kind::SpeedType => put_enumeration(out, at, words, i, SPEED_TYPES),
        Kind::ThreeSpeedTypes => put_enumeration(out, at, words, i, SPEED_TYPES),
        Kind::Level => put_level(out, at, words, i),
        Kind::Degrees => put_degrees(out, at, words, i),
        Kind::Frequency => put_frequency(out, at, words, i),
        Kind::Code => put_code(out, at, words, i),
        Kind::TrafficType => put_enumeration(out, at, words, i, TRAFFIC_TYPES),
        Kind::ClearanceType => put_enumeration(out, at, words, i, CLEARANCE_TYPES),
        Kind::ErrorInformation => put_enumeration(out, at, words, i, ERROR_INFORMATION),
        Kind::FacilityFunction => put_enumeration(out, at, words, i, FACILITY_FUNCTIONS),
        Kind::Procedure => put_procedure(out, at, words, i),
        Kind::Runway => put_runway(out, at, words, i),
        Kind::Coordinates => put_coordinates(out, at, words, i),
        Kind::DepartureClearance => put_departure(out, at, words, i),
    }
}
