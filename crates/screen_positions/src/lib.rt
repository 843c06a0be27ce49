// The text of positions and of the departure clearance, whose records start at record i of the lent words.
#![tactic(auto)]

ghost use Rattle.std.specs.Prelude.{◌≡◌, ◌^◌, ◌≤◌, ◌<◌};
ghost use Rattle.screen_bytes.specs.Put.{Put};
ghost use Rattle.record_views.specs.View.{records_from};
ghost use Rattle.screen_positions.specs.Positions.{bracketed, named, named_records, position, position_records, unread, cleared, departure};

use cpdlc_tags::{COORDINATES, FLIGHT_INFORMATION, FURTHER_INSTRUCTIONS};
use screen_bytes::{put_byte, put_text};
use screen_coordinates::{coordinates_records, put_coordinates};
use screen_records::{put_record_text, tag_at, text_records, value_at};

// Coordinates in brackets, if record i has their tag.
fn put_bracketed(out: &mut [u8], at: usize, words: &[u64], i: usize) -> usize
    requires { (at < 2 ^ 55) × (i < 2 ^ 55) }
    ensures { Put 140 out.old out.new at result (bracketed (records_from i words.now)) }
{
    if tag_at(words, i, 0) != COORDINATES {
        return at;
    }
    let a = put_text(out, at, b" (");
    let b = put_coordinates(out, a, words, i);
    put_byte(out, b, b')')
}

// A fix or a navaid.
fn put_named(out: &mut [u8], at: usize, words: &[u64], i: usize) -> usize
    requires { (at < 2 ^ 54) × (i < 2 ^ 54) }
    ensures { Put 172 out.old out.new at result (named (records_from i words.now)) }
{
    let k = text_records(words, i);
    let a = put_record_text(out, at, words, i);
    put_bracketed(out, a, words, i + k)
}

// How many records it has.
fn named_records(words: &[u64], i: usize) -> usize
    requires { i < 2 ^ 54 }
    ensures { (result ≡ named_records (records_from i words.now)) × (result ≤ 15) }
{
    let k = text_records(words, i);
    if tag_at(words, i, k) == COORDINATES {
        return k + coordinates_records(words, i + k);
    }
    k
}

pub fn put_position(out: &mut [u8], at: usize, words: &[u64], i: usize) -> usize
    requires { (at < 2 ^ 53) × (i < 2 ^ 53) }
    ensures { Put 172 out.old out.new at result (position (records_from i words.now)) }
{
    let form = value_at(words, i, 0);
    match form {
        0 => put_named(out, at, words, i + 1),
        1 => put_named(out, at, words, i + 1),
        2 => put_record_text(out, at, words, i + 1),
        _ => put_coordinates(out, at, words, i + 1),
    }
}

// How many records it has.
fn position_records(words: &[u64], i: usize) -> usize
    requires { i < 2 ^ 53 }
    ensures { (result ≡ position_records (records_from i words.now)) × (result ≤ 16) }
{
    let form = value_at(words, i, 0);
    match form {
        0 => 1 + named_records(words, i + 1),
        1 => 1 + named_records(words, i + 1),
        2 => 1 + text_records(words, i + 1),
        _ => 1 + coordinates_records(words, i + 1),
    }
}

// What is said of parts that are there and not read, by the tag of the record behind the position.
fn put_unread(out: &mut [u8], at: usize, t: u64) -> usize
    requires { at < 2 ^ 53 }
    ensures { Put 60 out.old out.new at result (unread t) }
{
    if t == FLIGHT_INFORMATION {
        return put_text(
            out,
            at,
            b" (+flight-info/further-instructions present, undecoded)",
        );
    }
    if t == FURTHER_INSTRUCTIONS {
        return put_text(
            out,
            at,
            b" (+flight-info/further-instructions present, undecoded)",
        );
    }
    at
}

// The clearance limit, and what is said of the parts behind it.
fn put_cleared(out: &mut [u8], at: usize, words: &[u64], i: usize) -> usize
    requires { (at < 2 ^ 52) × (i < 2 ^ 52) }
    ensures { Put 232 out.old out.new at result (cleared (records_from i words.now)) }
{
    let k = position_records(words, i);
    let t = tag_at(words, i, k);
    let a = put_position(out, at, words, i);
    put_unread(out, a, t)
}

pub fn put_departure(out: &mut [u8], at: usize, words: &[u64], i: usize) -> usize
    requires { (at < 2 ^ 51) × (i < 2 ^ 51) }
    ensures { Put 276 out.old out.new at result (departure (records_from i words.now)) }
{
    let k = text_records(words, i);
    let a = put_record_text(out, at, words, i);
    let b = put_text(out, a, b" CLEARED TO ");
    put_cleared(out, b, words, i + k)
}
