// From record to record.
ghost use Rattle.std.specs.Prelude.{◌≡◌, ◌≤◌, length};
ghost use Rattle.record_views.specs.View.{records_from};
ghost use Rattle.record_grammar.specs.Rows.{resolved, asked, found, left_behind, or_kept, clearance_behind, place_behind, element_behind, row_behind, onward, stepped};
ghost use Rattle.record_grammar.specs.Heard.{start, heard, formed};

use super::rows::{does_fit, element_kept, row_at, still_unheard};
use super::{Kind, Row, Walk, table};
use record_views::{Record, are_whole, record_at, records_in};

// No more rows are asked for a record.
const MOST_ASKED: u64 = 64;

// Rows 1 and 2 stand for those that the walk keeps.
#[tactic(auto, unfolding(crate::specs::Rows::resolved))]
fn resolve(s: Walk, k: u64) -> u64
    ensures { result ≡ resolved s k }
{
    if k == 1 {
        return s.back;
    }
    if k == 2 {
        return s.last;
    }
    k
}

// The row that is asked next.
#[tactic(auto, unfolding(crate::specs::Rows::asked))]
fn ask(r: Row, s: Walk) -> u64
    ensures { result ≡ asked r s }
{
    if s.left == 0 {
        return r.otherwise;
    }
    0
}

// The row whose record x is.
fn find(rows: &[u64], s: Walk, x: Record) -> u64
    requires { length rows.now ≤ 8000000 }
    ensures { result ≡ found rows.now 64 s s.at x }
{
    let mut k = s.at;
    for _ in 0..MOST_ASKED {
        let j = resolve(s, k);
        let r = row_at(rows, j);
        if does_fit(r, s, x) {
            return j;
        }
        k = ask(r, s);
    }
    0
}

// The characters that are left behind x.
#[tactic(auto, unfolding(crate::specs::Rows::left_behind))]
fn left_behind(r: Row, s: Walk, x: Record) -> u64
    ensures { result ≡ left_behind r s x }
{
    if r.is(Kind::Text) {
        return still_unheard(s, x).saturating_sub(8);
    }
    0
}

#[tactic(auto, unfolding(crate::specs::Rows::or_kept))]
fn or_kept(n: u64, kept: u64) -> u64
    ensures { result ≡ or_kept n kept }
{
    if n == 0 {
        return kept;
    }
    n
}

#[tactic(auto, unfolding(crate::specs::Rows::element_behind))]
fn element_behind(r: Row, s: Walk, x: Record) -> u64
    ensures { result ≡ element_behind r s x }
{
    if r.is(Kind::Index) {
        return x.element;
    }
    element_kept(r, s.element)
}

#[tactic(auto, unfolding(crate::specs::Rows::clearance_behind))]
fn clearance_behind(r: Row, s: Walk, x: Record) -> u64
    ensures { result ≡ clearance_behind r s x }
{
    if r.is(Kind::Clearance) {
        return x.value;
    }
    s.clearance
}

// Places are counted anew in each clearance.
#[tactic(auto, unfolding(crate::specs::Rows::place_behind))]
fn place_behind(r: Row, s: Walk, x: Record) -> u64
    ensures { result ≡ place_behind r s x }
{
    if r.is(Kind::Place) {
        return x.value;
    }
    if r.is(Kind::Clearance) {
        return 0;
    }
    s.place
}

// Within a text the row stays.
#[tactic(auto, unfolding(crate::specs::Rows::row_behind))]
fn row_behind(left: u64, j: u64, next: u64) -> u64
    ensures { result ≡ row_behind left j next }
{
    if left == 0 {
        return next;
    }
    j
}

// Where the walk stands behind x, which row j took.
#[tactic(auto, unfolding(crate::specs::Rows::onward))]
fn go_onward(j: u64, r: Row, s: Walk, x: Record) -> Walk
    ensures { result ≡ onward j r s x }
{
    let left = left_behind(r, s, x);
    let at = row_behind(left, j, r.next);
    let back = or_kept(r.back, s.back);
    let last = or_kept(r.last, s.last);
    let element = element_behind(r, s, x);
    let clearance = clearance_behind(r, s, x);
    let place = place_behind(r, s, x);
    Walk {
        at,
        back,
        last,
        element,
        clearance,
        place,
        whole: x.second,
        left,
        before: x.value,
        earlier: s.before,
    }
}

// One record.
#[tactic(auto, unfolding(crate::specs::Rows::stepped))]
fn step(rows: &[u64], s: Walk, x: Record) -> Walk
    requires { length rows.now ≤ 8000000 }
    ensures { result ≡ stepped rows.now s x }
{
    let j = find(rows, s, x);
    let r = row_at(rows, j);
    go_onward(j, r, s, x)
}

#[tactic(auto, unfolding(crate::specs::Heard::start))]
fn begin() -> Walk
    ensures { result ≡ start }
{
    Walk {
        at: 4,
        back: 0,
        last: 0,
        element: 0,
        clearance: 0,
        place: 0,
        whole: 0,
        left: 0,
        before: 0,
        earlier: 0,
    }
}

// All records, and the end as a record of zeros.
fn hear(rows: &[u64], words: &[u64]) -> bool
    requires { length rows.now ≤ 8000000 }
    ensures { result ≡ heard rows.now (records_from 0 words.now) }
{
    let n = records_in(words);
    let mut s = begin();
    for i in 0..n {
        let x = record_at(words, i);
        s = step(rows, s, x);
    }
    let end = record_at(words, n);
    let done = step(rows, s, end);
    done.at == 3
}

// Whether the words are whole records, in an order and with numbers that a reading gives.
pub fn are_formed(words: &[u64]) -> bool
    ensures { result ≡ formed words.now }
{
    if are_whole(words) {
        return hear(&table::ROWS, words);
    }
    false
}
