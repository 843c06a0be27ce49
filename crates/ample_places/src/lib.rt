// Named and published places, bearings and designators whose bits are all ahead: read and told at once, from a word that the caller hands on as far as it goes.
#![tactic(auto)]

ghost use Rattle.std.specs.Prelude.{◌≡◌, List, ℕ, ◌+◌, ◌-◌, ◌*◌, ◌/◌, ◌^◌, ◌≤◌, ◌<◌, length};
ghost use Rattle.x691.specs.Bits.{bit_of};
ghost use Rattle.x691.specs.Encoding.{width};
ghost use Rattle.atn.specs.Messages as message;
ghost use Rattle.atn.specs.Reading.{pack, units};
ghost use Rattle.records.specs.Space.{space};
ghost use Rattle.records.specs.Told.{Told};
ghost use Rattle.ample_bits.specs.Ahead.{Ahead};
ghost use Rattle.ample_readings.specs.Ample.{Ample, Fixed};
ghost use Rattle.ample_places.specs.Place.{place_of, Named};

use ample_angles::read_pair;
use ample_bits::{ahead, behind, first};
use ample_readings::{Step, above, given_up, read_ranged};
use cpdlc_tags::{
    DEGREES, DEGREES_NUMBER, PUBLISHED, PUBLISHED_FIX, PUBLISHED_NAVAID, ROUTE_DESIGNATOR,
};
use field_ranges::table::{DEGREES_0, FIX_SIZE, NAVAID_SIZE, ROUTE_SIZE};
use records::store;
use tell::spread::top_sevens;

// The bits of a character.
const CHARACTER: usize = 7;

// The characters of a name that the word of a place has at least: it has 47 bits, less five for kind, presence and size.
const AT_HAND: usize = 6;

// The bits of the kind of a place or a bearing, of which there are two.
const KIND: usize = 1;

// The bits of a bearing.
pub const BEARING: usize = 10;

// A text of at most eight characters, at the top of a word, of a field that starts at `from`: one record.
fn short_text(words: &mut [u64], n: usize, v: u64, tag: u64, from: usize, len: usize) -> usize
    requires { (n < 2 ^ 30) × (space (n + 1) ≤ length words.old) × (1 ≤ len) × (len ≤ 8) }
    ensures { (s : List ℕ) (at : ℕ) → Ahead s at (len * 7) v → at < 2 ^ 60 → at + len * 7 ≤ length s * 8 → Told 1 words.old words.new n result (pack tag 0 from (units (bit_of s) 7 at len)) }
{
    let x = top_sevens(first(v, len * CHARACTER), len);
    store(words, n, tag, 0, x, len as u64, from)
}

// The characters of a text from `at` on, at the top of a word: of the one at hand, or a new one where they are more than that has.
fn text_ahead(s: &[u8], v: u64, at: usize, len: usize) -> u64
    requires { (Ahead s.now at 42 v) × (at / 8 + 8 ≤ length s.now) × (len ≤ 8) }
    ensures { Ahead s.now at (len * 7) result }
{
    if len <= AT_HAND {
        return v;
    }
    ahead(s, at)
}

// How far a place was read before its coordinates: these follow, unless `has` is 0.
#[derive(Clone, Copy)]
struct Name {
    at: usize,
    n: usize,
    marks: u64,
    has: u64,
}

// Whether coordinates follow, and a name by the ends and the width of its size.
fn read_named(
    s: &[u8],
    words: &mut [u64],
    n: usize,
    v: u64,
    at: usize,
    tag: u64,
    least: usize,
    most: u64,
    wide: usize,
) -> Name
    requires { (n < 2 ^ 30) × (space (n + 1) ≤ length words.old) × (at < 2 ^ 58) × (at + 68 ≤ length s.now * 8) × (Ahead s.now at 46 v) × (least ≡ 1) × (width (most - 1) ≡ wide) × (1 ≤ wide) × (wide ≤ 3) }
    ensures { Named 1 60 (message.named tag most) s.now at n words.old words.new result }
{
    let has = first(v, 1);
    let b = behind(v, 1);
    let raw = first(b, wide);
    let size = raw as usize + least;
    let from = at + 1;
    let p = from + wide;
    let text = text_ahead(s, behind(b, wide), p, size);
    let m = short_text(words, n, text, tag, from, size);
    let marks = above(size as u64, most);
    Name {
        at: p + size * CHARACTER,
        n: m,
        marks: marks,
        has: has,
    }
}

// What a published place of a kind is named by: its tag, the ends of the size of its name and the bits that the size takes.
#[derive(Clone, Copy)]
struct Naming {
    tag: u64,
    least: usize,
    most: u64,
    wide: usize,
}

// Kind 0 is a fix, kind 1 a navaid.
fn naming_of(kind: u64) -> Naming
    ensures { (result.least ≡ 1) × (width (result.most - 1) ≡ result.wide) × (1 ≤ result.wide) × (result.wide ≤ 3) × (kind ≡ 0 → (result.tag ≡ 99) × (result.most ≡ 5)) × (kind ≡ 1 → (result.tag ≡ 100) × (result.most ≡ 4)) }
{
    if kind == 0 {
        let wide = FIX_SIZE.width();
        return Naming {
            tag: PUBLISHED_FIX,
            least: FIX_SIZE.lo as usize,
            most: FIX_SIZE.hi,
            wide: wide,
        };
    }
    let wide = NAVAID_SIZE.width();
    Naming {
        tag: PUBLISHED_NAVAID,
        least: NAVAID_SIZE.lo as usize,
        most: NAVAID_SIZE.hi,
        wide: wide,
    }
}

// A published place up to its coordinates; before coordinates alone there is nothing to read.
fn read_name(s: &[u8], words: &mut [u64], n: usize, v: u64, at: usize, published: bool) -> Name
    requires { (n < 2 ^ 29) × (space (n + 2) ≤ length words.old) × (at < 2 ^ 57) × (at + 69 ≤ length s.now * 8) × (Ahead s.now at 47 v) }
    ensures { Named 2 61 (place_of published) s.now at n words.old words.new result }
{
    if !published {
        return Name {
            at: at,
            n: n,
            marks: 0,
            has: 1,
        };
    }
    let kind = first(v, KIND);
    let m = store(words, n, PUBLISHED, 0, kind, 0, at);
    let p = at + KIND;
    let by = naming_of(kind);
    read_named(
        s,
        words,
        m,
        behind(v, KIND),
        p,
        by.tag,
        by.least,
        by.most,
        by.wide,
    )
}

// A published place, or coordinates alone.
pub fn read_place(s: &[u8], words: &mut [u64], n: usize, v: u64, at: usize, published: bool) -> Step
    requires { (n < 2 ^ 27) × (space (n + 13) ≤ length words.old) × (at < 2 ^ 57) × (at + 125 ≤ length s.now * 8) × (Ahead s.now at 47 v) }
    ensures { Ample 13 111 (place_of published) s.now at n words.old words.new result }
{
    let x = read_name(s, words, n, v, at, published);
    if x.has == 0 {
        return Step {
            at: x.at,
            n: x.n,
            marks: x.marks,
        };
    }
    let y = read_pair(s, words, x.n, x.at);
    Step {
        at: y.at,
        n: y.n,
        marks: x.marks | y.marks,
    }
}

// Both kinds of degrees have one range.
pub fn read_degrees(words: &mut [u64], n: usize, v: u64, at: usize) -> Step
    requires { (n < 2 ^ 30) × (space (n + 2) ≤ length words.old) × (at < 2 ^ 60) }
    ensures { Fixed 2 10 message.degrees v at n words.old words.new result }
{
    let kind = first(v, KIND);
    let m = store(words, n, DEGREES, 0, kind, 0, at);
    let p = at + KIND;
    read_ranged(words, m, behind(v, KIND), p, DEGREES_NUMBER, DEGREES_0)
}

// The designator of a route. One above its range is given up.
pub fn read_designator(words: &mut [u64], n: usize, v: u64, at: usize) -> Step
    requires { (n < 2 ^ 30) × (space (n + 1) ≤ length words.old) × (at < 2 ^ 59) }
    ensures { (s : List ℕ) → Ahead s at 52 v → at + 52 ≤ length s * 8 → Ample 1 52 (message.ia5 101 2 7) s at n words.old words.new result }
{
    let wide = ROUTE_SIZE.width();
    let size = first(v, wide) + ROUTE_SIZE.lo;
    if ROUTE_SIZE.hi < size {
        return given_up();
    }
    let len = size as usize;
    let m = short_text(words, n, behind(v, wide), ROUTE_DESIGNATOR, at, len);
    Step {
        at: at + wide + len * CHARACTER,
        n: m,
        marks: 0,
    }
}
