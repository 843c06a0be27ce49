// Rows of eight numbers, and which records one takes.
ghost use Rattle.std.specs.Prelude.{◌≡◌, ◌≤◌, ◌<◌, length, Some};
ghost use Rattle.record_grammar.specs.Octets.{rule_number};
ghost use Rattle.record_grammar.specs.Rows.{row_word, row_at, numbered, unheard, length_fits, lettered, spanned, counted, channelled, all_digits, noted, holds, element_kept, element_fits, fits};

use super::octets::{Rule, characters_fit, is_within};
use super::{Kind, Row, Walk};
use record_views::Record;

// Number j of row k, 0 where the rows have none.
fn row_word(rows: &[u64], k: u64, j: usize) -> u64
    requires { (length rows.now ≤ 8000000) × (j < 8) }
    ensures { result ≡ row_word rows.now k j }
{
    if k < 1000000 {
        let i = (k as usize) * 8 + j;
        if i < rows.len() {
            return rows[i];
        }
    }
    0
}

pub fn row_at(rows: &[u64], k: u64) -> Row
    requires { length rows.now ≤ 8000000 }
    ensures { result ≡ row_at rows.now k }
{
    let tag = row_word(rows, k, 0);
    let kind = row_word(rows, k, 1);
    let low = row_word(rows, k, 2);
    let size = row_word(rows, k, 3);
    let next = row_word(rows, k, 4);
    let otherwise = row_word(rows, k, 5);
    let back = row_word(rows, k, 6);
    let last = row_word(rows, k, 7);
    Row {
        tag,
        kind,
        low,
        size,
        next,
        otherwise,
        back,
        last,
    }
}

// A number; where the second number is not 0 it is at most `most`, and the value 0.
#[tactic(auto, unfolding(crate::specs::Rows::numbered))]
fn is_numbered(most: u64, r: Row, x: Record) -> bool
    ensures { result ≡ numbered most r x }
{
    if x.second == 0 {
        return is_within(r.low, r.size, x.value);
    }
    x.second <= most && x.value == 0
}

// The characters that are left, this record's included.
pub fn still_unheard(s: Walk, x: Record) -> u64
    ensures { result ≡ unheard s x }
{
    if s.left == 0 {
        return x.second;
    }
    s.left
}

fn length_fits(r: Row, s: Walk, x: Record) -> bool
    ensures { result ≡ length_fits r s x }
{
    if s.left == 0 {
        return is_within(r.low, r.size, x.second);
    }
    x.second == s.whole
}

#[tactic(auto, unfolding(crate::specs::Rows::lettered))]
fn is_lettered(r: Row, s: Walk, x: Record) -> bool
    ensures { result ≡ lettered r s x }
{
    length_fits(r, s, x) && characters_fit(Some(Rule::Ia5), still_unheard(s, x), 0, x.value)
}

// A span ends within the longest frame.
fn is_spanned(r: Row, x: Record) -> bool
    ensures { result ≡ spanned r x }
{
    if is_within(r.low, r.size, x.second) {
        if x.second <= 524288 {
            return x.value <= 524288 - x.second;
        }
        return false;
    }
    false
}

// The number behind n.
#[tactic(auto, unfolding(crate::specs::Rows::counted))]
fn is_counted(n: u64, r: Row, x: Record) -> bool
    ensures { result ≡ counted n r x }
{
    x.second == 0 && n < r.size && x.value == n + 1
}

#[tactic(auto, unfolding(crate::specs::Rows::channelled))]
fn is_channelled(rule: Rule, r: Row, s: Walk, x: Record) -> bool
    ensures { result ≡ channelled (rule_number (Some rule)) r s x }
{
    x.second == 12 && characters_fit(Some(rule), r.low, s.earlier, x.value)
}

#[tactic(auto, unfolding(crate::specs::Rows::all_digits))]
fn is_all_digits(r: Row, s: Walk, x: Record) -> bool
    ensures { result ≡ all_digits r s x }
{
    is_channelled(Rule::Digits, r, s, x) && characters_fit(Some(Rule::Digits), 8, 0, s.before)
}

#[tactic(auto, unfolding(crate::specs::Rows::noted))]
fn is_noted(r: Row, x: Record) -> bool
    ensures { result ≡ noted r x }
{
    x.value == r.low && x.second == r.size
}

// What the record holds, by the kind of the row.
#[tactic(auto, unfolding(crate::specs::Rows::holds))]
fn does_hold(r: Row, s: Walk, x: Record) -> bool
    ensures { result ≡ holds r s x }
{
    match r.kind() {
        Some(Kind::Number) => is_numbered(0, r, x),
        Some(Kind::Reason) => is_numbered(1, r, x),
        Some(Kind::Release) => is_numbered(2, r, x),
        Some(Kind::Text) => is_lettered(r, s, x),
        Some(Kind::Span) => is_spanned(r, x),
        Some(Kind::Index) => is_numbered(0, r, x),
        Some(Kind::Clearance) => is_counted(s.clearance, r, x),
        Some(Kind::Place) => is_counted(s.place, r, x),
        Some(Kind::Channel) => is_channelled(Rule::Channel, r, s, x),
        Some(Kind::Digits) => is_all_digits(r, s, x),
        Some(Kind::Spaced) => is_channelled(Rule::Spaced, r, s, x),
        Some(Kind::Note) => is_noted(r, x),
        None => false,
    }
}

// The element number behind a row's record that begins no element.
#[tactic(auto, unfolding(crate::specs::Rows::element_kept))]
pub fn element_kept(r: Row, element: u64) -> u64
    ensures { result ≡ element_kept r.kind element }
{
    if r.is(Kind::Span) || r.is(Kind::Clearance) || r.is(Kind::Note) {
        return 0;
    }
    element
}

#[tactic(auto, unfolding(crate::specs::Rows::element_fits))]
fn element_fits(r: Row, s: Walk, x: Record) -> bool
    ensures { result ≡ element_fits r s x }
{
    if r.is(Kind::Index) {
        if s.element < 8 {
            return x.element == s.element + 1;
        }
        return false;
    }
    x.element == element_kept(r, s.element)
}

// Whether the record is this row's.
#[tactic(auto, unfolding(crate::specs::Rows::fits))]
pub fn does_fit(r: Row, s: Walk, x: Record) -> bool
    ensures { result ≡ fits r s x }
{
    x.tag == r.tag && element_fits(r, s, x) && does_hold(r, s, x)
}
