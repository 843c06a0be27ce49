// The elements of a list of records: what kind of argument each has, and that an index has one.
#![tactic(auto)]

ghost use Rattle.std.specs.Prelude.{◌≡◌, ◌+◌, ◌^◌, ◌<◌};
ghost use Rattle.record_views.specs.View.{record_at, records_from};
ghost use Rattle.element_kinds.specs.Kinds.{byte_of, kind_by, kind_of};
ghost use Rattle.element_kinds.specs.Agreed.{is_last, kind_agrees, one_agrees, later_agree, element_agrees, agreed};

use cpdlc_tags::{
    CLEARANCE, CLEARANCE_TYPE, CODE_DIGIT, COORDINATES, DEGREES, ELEMENT_INDEX, ERROR_INFORMATION,
    FACILITY_FUNCTION, FLIGHT_IDENTIFICATION, FREQUENCY, LEVEL, POSITION, PROCEDURE, RUNWAY, SPEED,
    SPEED_TYPE, TRAFFIC_TYPE,
};
use record_views::{record_at, records_in};

// What an element's argument is.
#[derive(Clone, Copy, PartialEq, Eq)]
pub enum Kind {
    Position,
    Speed,
    SpeedType,
    ThreeSpeedTypes,
    Level,
    Degrees,
    Frequency,
    Code,
    TrafficType,
    ClearanceType,
    ErrorInformation,
    FacilityFunction,
    Procedure,
    Runway,
    Coordinates,
    DepartureClearance,
}

// The argument's kind by the first two tags behind an element's index.
#[tactic(auto, unfolding(crate::specs::Kinds::kind_by))]
fn kind_by(t: u64, u: u64) -> Option<Kind>
    ensures { byte_of result ≡ kind_by t u }
{
    match t {
        POSITION => Some(Kind::Position),
        SPEED => Some(Kind::Speed),
        SPEED_TYPE => {
            if u == SPEED_TYPE {
                return Some(Kind::ThreeSpeedTypes);
            }
            Some(Kind::SpeedType)
        }
        LEVEL => Some(Kind::Level),
        DEGREES => Some(Kind::Degrees),
        FREQUENCY => Some(Kind::Frequency),
        CODE_DIGIT => Some(Kind::Code),
        TRAFFIC_TYPE => Some(Kind::TrafficType),
        CLEARANCE_TYPE => Some(Kind::ClearanceType),
        ERROR_INFORMATION => Some(Kind::ErrorInformation),
        FACILITY_FUNCTION => Some(Kind::FacilityFunction),
        PROCEDURE => Some(Kind::Procedure),
        RUNWAY => Some(Kind::Runway),
        COORDINATES => Some(Kind::Coordinates),
        FLIGHT_IDENTIFICATION => Some(Kind::DepartureClearance),
        _ => None,
    }
}

// The kind of the argument whose first record is record i.
pub fn kind_at(words: &[u64], i: usize) -> Option<Kind>
    requires { i < 2 ^ 63 }
    ensures { byte_of result ≡ kind_of (records_from i words.now) }
{
    let first = record_at(words, i);
    let second = record_at(words, i + 1);
    kind_by(first.tag, second.tag)
}

#[tactic(auto, unfolding(crate::specs::Agreed::is_last))]
fn is_last(t: u64) -> bool
    ensures { result ≡ is_last t }
{
    t != ELEMENT_INDEX && t != CLEARANCE
}

fn kind_agrees(kind: Option<Kind>, k: Option<Kind>, t: u64) -> bool
    ensures { result ≡ kind_agrees (byte_of kind) (byte_of k) t }
{
    if k == kind {
        return true;
    }
    if k.is_none() {
        return is_last(t);
    }
    false
}

// Whether record i, if it begins an element of this index, has an argument of this kind.
fn one_agrees(words: &[u64], i: usize, index: u64, kind: Option<Kind>) -> bool
    requires { i < 2 ^ 62 }
    ensures { result ≡ one_agrees index (byte_of kind) (record_at words.now i) (records_from (i + 1) words.now) }
{
    let x = record_at(words, i);
    if x.tag == ELEMENT_INDEX && x.value == index {
        let next = record_at(words, i + 1);
        let k = kind_at(words, i + 1);
        return kind_agrees(kind, k, next.tag);
    }
    true
}

// The records from i on.
fn later_agree(words: &[u64], from: usize, index: u64, kind: Option<Kind>) -> bool
    ensures { result ≡ later_agree index (byte_of kind) (records_from from words.now) }
{
    for i in from..records_in(words) {
        if !one_agrees(words, i, index, kind) {
            return false;
        }
    }
    true
}

// An element, with all that follow.
fn element_agrees(words: &[u64], i: usize) -> bool
    requires { i < 2 ^ 62 }
    ensures { result ≡ element_agrees (record_at words.now i) (records_from (i + 1) words.now) }
{
    let x = record_at(words, i);
    if x.tag == ELEMENT_INDEX {
        let kind = kind_at(words, i + 1);
        return later_agree(words, i + 1, x.value, kind);
    }
    true
}

// Whether each index has one kind of argument.
pub fn elements_agree(words: &[u64]) -> bool
    ensures { result ≡ agreed (records_from 0 words.now) }
{
    for i in 0..records_in(words) {
        if !element_agrees(words, i) {
            return false;
        }
    }
    true
}
