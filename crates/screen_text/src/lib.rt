// The lines of the elements of a list of records.
#![tactic(auto)]

ghost use Rattle.std.specs.Prelude.{◌≡◌, ◌+◌, ◌*◌, ◌^◌, ◌≤◌, ◌<◌, length, not, ◌==◌};
ghost use Rattle.phrases.specs.Phrases.{line_of};
ghost use Rattle.record_views.specs.View.{fetched, record_at, records_from};
ghost use Rattle.screen_bytes.specs.Put.{Put};
ghost use Rattle.screen_text.specs.Text.{number, direction, table_of, one_phrased, phrased, index_line, left_after, record_line, lines, most, cost};

use cpdlc_tags::{CARRIED_DIRECTION, DIRECTION, ELEMENT_INDEX};
use element_kinds::kind_at;
use phrases::phrase_of;
use record_views::{Record, record_at, records_in};
use screen_bytes::put_byte;
use screen_elements::put_element_line;

// No message has more elements.
const ELEMENTS: u64 = 8;

// Whose elements follow: the aircraft's or the ground's.
#[derive(Clone, Copy)]
pub enum Direction {
    Down,
    Up,
}

fn direction_by(ground: bool) -> Direction
    ensures { (number result == 0) ≡ not ground }
{
    if ground {
        return Direction::Up;
    }
    Direction::Down
}

// Whose elements follow x. A carried message's bit is 0 for the ground's.
#[tactic(auto, unfolding(crate::specs::Text::direction))]
fn direction_after(d: Direction, x: Record) -> Direction
    ensures { (number result == 0) ≡ (direction (number d) x == 0) }
{
    match x.tag {
        DIRECTION => direction_by(x.value != 0),
        CARRIED_DIRECTION => direction_by(x.value == 0),
        _ => d,
    }
}

// The phrases of a direction.
#[tactic(auto, unfolding(crate::specs::Text::table_of))]
fn table_of<'a>(down: &'a [u8], up: &'a [u8], d: Direction) -> &'a [u8]
    ensures { result.now ≡ table_of down.now up.now (number d) }
{
    match d {
        Direction::Down => down,
        Direction::Up => up,
    }
}

// Whether the element that x begins has a phrase.
#[tactic(auto, unfolding(crate::specs::Text::one_phrased))]
fn is_phrased(table: &[u8], x: Record) -> bool
    ensures { result ≡ one_phrased table.now x }
{
    if x.tag == ELEMENT_INDEX {
        return phrase_of(table, x.value).is_some();
    }
    true
}

// Whether every element has one.
pub fn have_phrases(words: &[u64], down: &[u8], up: &[u8]) -> bool
    ensures { result ≡ phrased down.now up.now 0 (records_from 0 words.now) }
{
    let mut d = Direction::Down;
    for i in 0..records_in(words) {
        let x = record_at(words, i);
        d = direction_after(d, x);
        let table = table_of(down, up, d);
        if !is_phrased(table, x) {
            return false;
        }
    }
    true
}

// A line of a table, empty where there is none.
#[tactic(auto, unfolding(phrases::specs::Phrases::line_of, phrases::specs::Phrases::or_nothing))]
fn line_of(table: &[u8], index: u64) -> &[u8]
    ensures { result.now ≡ line_of table.now index }
{
    match phrase_of(table, index) {
        Some(line) => line,
        None => b"",
    }
}

// The line of an element whose records stand from `first` on, and the line feed.
fn put_line(
    words: &[u64],
    first: usize,
    index: u64,
    table: &[u8],
    out: &mut [u8],
    at: usize,
) -> usize
    requires { (first < 2 ^ 48) × (at < 2 ^ 48) × (length table.now < 2 ^ 44) }
    ensures { Put most out.old out.new at result (index_line table.now index (records_from first words.now)) }
{
    let kind = kind_at(words, first);
    let phrase = line_of(table, index);
    let m = put_element_line(words, first, kind, phrase, out, at);
    put_byte(out, m, b'\n')
}

// How many elements may still come behind x.
#[tactic(auto, unfolding(crate::specs::Text::left_after))]
fn left_after(n: u64, x: Record) -> u64
    ensures { result ≡ left_after n x }
{
    if x.tag == ELEMENT_INDEX {
        return n.saturating_sub(1);
    }
    n
}

// What record i adds, with n elements at most.
fn put_record_line(
    words: &[u64],
    i: usize,
    n: u64,
    table: &[u8],
    out: &mut [u8],
    at: usize,
) -> usize
    requires { (i < 2 ^ 47) × (at < 2 ^ 48) × (length table.now < 2 ^ 44) }
    ensures { Put (cost n (fetched (record_at words.now i))) out.old out.new at result (record_line n table.now (fetched (record_at words.now i)) (records_from (i + 1) words.now)) }
{
    let x = record_at(words, i);
    if x.tag == ELEMENT_INDEX {
        if n == 0 {
            return at;
        }
        return put_line(words, i + 1, x.value, table, out, at);
    }
    at
}

// The lines of all records. Bytes without room count all the same.
pub fn put_lines(words: &[u64], down: &[u8], up: &[u8], out: &mut [u8]) -> usize
    requires { (length words.now < 2 ^ 40) × (length down.now < 2 ^ 44) × (length up.now < 2 ^ 44) }
    ensures { Put (8 * most) out.old out.new 0 result (lines down.now up.now 8 0 (records_from 0 words.now)) }
{
    let mut n = ELEMENTS;
    let mut d = Direction::Down;
    let mut at = 0;
    for i in 0..records_in(words) {
        let x = record_at(words, i);
        d = direction_after(d, x);
        let table = table_of(down, up, d);
        at = put_record_line(words, i, n, table, out, at);
        n = left_after(n, x);
    }
    at
}
