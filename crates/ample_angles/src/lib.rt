// Latitudes and longitudes whose bits are all ahead, at the top of a word: read and told at once.
#![tactic(auto)]

ghost use Rattle.std.specs.Prelude.{◌≡◌, List, ℕ, ◌+◌, ◌*◌, ◌^◌, ◌≤◌, ◌<◌, length};
ghost use Rattle.x691.specs.Encoding.{width};
ghost use Rattle.atn.specs.Format.{num, seq, end, ◌⨾◌};
ghost use Rattle.atn.specs.Messages as message;
ghost use Rattle.records.specs.Space.{space};
ghost use Rattle.ample_bits.specs.Ahead.{Ahead};
ghost use Rattle.ample_readings.specs.Ample.{Ample};
ghost use Rattle.ample_angles.specs.Angle.{angle_of};

use ample_bits::{ahead, behind, first};
use ample_readings::{Step, given_up, read_number, read_ranged};
use cpdlc_tags::{COORDINATES, LATITUDE, LONGITUDE};
use field_ranges::table::{
    HUNDREDTHS, LATITUDE_DEGREES, LATITUDE_THOUSANDTHS, LONGITUDE_DEGREES, LONGITUDE_THOUSANDTHS,
    MINUTES, SIDE,
};
use records::store;

// The numbers of an angle and its side, by its form. The tags of an angle follow one another from `tag` on: form, thousandths, degrees, hundredths, minutes, seconds, side.
fn thousandths(
    words: &mut [u64],
    n: usize,
    v: u64,
    at: usize,
    tag: u64,
    most: u64,
    wide: usize,
) -> Step
    requires { (n < 2 ^ 31) × (space (n + 2) ≤ length words.old) × (at < 2 ^ 61) × (tag < 256) × (most < 2 ^ 18) × (width most ≡ wide) × (1 ≤ wide) × (wide ≤ 18) }
    ensures { (s : List ℕ) → Ahead s at 22 v → Ample 2 19 (seq (num (tag + 1) 0 most ⨾ num (tag + 6) 0 1 ⨾ end)) s at n words.old words.new result }
{
    let a = behind(v, wide);
    let x = read_number(words, n, v, at, tag + 1, 0, most, wide);
    let side = read_ranged(words, x.n, a, x.at, tag + 6, SIDE);
    Step {
        at: side.at,
        n: side.n,
        marks: x.marks | side.marks,
    }
}

fn hundredths(
    words: &mut [u64],
    n: usize,
    v: u64,
    at: usize,
    tag: u64,
    most: u64,
    narrow: usize,
) -> Step
    requires { (n < 2 ^ 31) × (space (n + 3) ≤ length words.old) × (at < 2 ^ 61) × (tag < 256) × (most < 256) × (width most ≡ narrow) × (1 ≤ narrow) × (narrow ≤ 8) }
    ensures { (s : List ℕ) → Ahead s at 22 v → Ample 3 22 (seq (seq (num (tag + 2) 0 most ⨾ num (tag + 3) 0 5999 ⨾ end) ⨾ num (tag + 6) 0 1 ⨾ end)) s at n words.old words.new result }
{
    let a = behind(v, narrow);
    let b = behind(a, HUNDREDTHS.width());
    let x = read_number(words, n, v, at, tag + 2, 0, most, narrow);
    let y = read_ranged(words, x.n, a, x.at, tag + 3, HUNDREDTHS);
    let side = read_ranged(words, y.n, b, y.at, tag + 6, SIDE);
    Step {
        at: side.at,
        n: side.n,
        marks: x.marks | y.marks | side.marks,
    }
}

fn seconds(
    words: &mut [u64],
    n: usize,
    v: u64,
    at: usize,
    tag: u64,
    most: u64,
    narrow: usize,
) -> Step
    requires { (n < 2 ^ 31) × (space (n + 4) ≤ length words.old) × (at < 2 ^ 61) × (tag < 256) × (most < 256) × (width most ≡ narrow) × (1 ≤ narrow) × (narrow ≤ 8) }
    ensures { (s : List ℕ) → Ahead s at 22 v → Ample 4 21 (seq (seq (num (tag + 2) 0 most ⨾ num (tag + 4) 0 59 ⨾ num (tag + 5) 0 59 ⨾ end) ⨾ num (tag + 6) 0 1 ⨾ end)) s at n words.old words.new result }
{
    let a = behind(v, narrow);
    let b = behind(a, MINUTES.width());
    let d = behind(b, MINUTES.width());
    let x = read_number(words, n, v, at, tag + 2, 0, most, narrow);
    let y = read_ranged(words, x.n, a, x.at, tag + 4, MINUTES);
    let z = read_ranged(words, y.n, b, y.at, tag + 5, MINUTES);
    let side = read_ranged(words, z.n, d, z.at, tag + 6, SIDE);
    Step {
        at: side.at,
        n: side.n,
        marks: x.marks | (y.marks | z.marks) | side.marks,
    }
}

// An angle by the most of its thousandths and of its degrees, and the bits that these take. A form that is not listed is given up.
fn angle(
    words: &mut [u64],
    n: usize,
    v: u64,
    at: usize,
    tag: u64,
    most: u64,
    wide: usize,
    degrees: u64,
    narrow: usize,
) -> Step
    requires { (n < 2 ^ 30) × (space (n + 5) ≤ length words.old) × (at < 2 ^ 60) × (tag < 256) × (most < 2 ^ 18) × (width most ≡ wide) × (1 ≤ wide) × (wide ≤ 18) × (degrees < 256) × (width degrees ≡ narrow) × (1 ≤ narrow) × (narrow ≤ 8) }
    ensures { (s : List ℕ) → Ahead s at 24 v → Ample 5 24 (angle_of tag most degrees) s at n words.old words.new result }
{
    let form = first(v, 2);
    let a = behind(v, 2);
    let m = store(words, n, tag, 0, form, 0, at);
    if form == 0 {
        return thousandths(words, m, a, at + 2, tag, most, wide);
    }
    if form == 1 {
        return hundredths(words, m, a, at + 2, tag, degrees, narrow);
    }
    if form == 2 {
        return seconds(words, m, a, at + 2, tag, degrees, narrow);
    }
    given_up()
}

// What an angle is read by: the first of its tags, the most of its thousandths and of its degrees, and the bits that these take.
#[derive(Clone, Copy)]
struct Bounds {
    tag: u64,
    most: u64,
    wide: usize,
    degrees: u64,
    narrow: usize,
}

// By the angles of a pair that are left, 1 for the longitude and 2 for the latitude: the first of them.
fn bounds_of(left: u64) -> Bounds
    ensures { (result.tag < 256) × (result.most < 2 ^ 18) × (width result.most ≡ result.wide) × (1 ≤ result.wide) × (result.wide ≤ 18) × (result.degrees < 256) × (width result.degrees ≡ result.narrow) × (1 ≤ result.narrow) × (result.narrow ≤ 8) × (left ≡ 1 → angle_of result.tag result.most result.degrees ≡ message.longitude) × ((left ≡ 1 → ⊥) → angle_of result.tag result.most result.degrees ≡ message.latitude) }
{
    if left == 1 {
        let most = LONGITUDE_THOUSANDTHS.extent();
        let wide = LONGITUDE_THOUSANDTHS.width();
        let degrees = LONGITUDE_DEGREES.extent();
        let narrow = LONGITUDE_DEGREES.width();
        return Bounds {
            tag: LONGITUDE,
            most: most,
            wide: wide,
            degrees: degrees,
            narrow: narrow,
        };
    }
    let most = LATITUDE_THOUSANDTHS.extent();
    let wide = LATITUDE_THOUSANDTHS.width();
    let degrees = LATITUDE_DEGREES.extent();
    let narrow = LATITUDE_DEGREES.width();
    Bounds {
        tag: LATITUDE,
        most: most,
        wide: wide,
        degrees: degrees,
        narrow: narrow,
    }
}

// Latitude and longitude, each of which may be absent: 50 bits at most, so that one word has them all.
pub fn read_pair(s: &[u8], words: &mut [u64], n: usize, at: usize) -> Step
    requires { (n < 2 ^ 29) × (space (n + 11) ≤ length words.old) × (at < 2 ^ 59) × (at + 64 ≤ length s.now * 8) }
    ensures { Ample 11 50 message.latlon s.now at n words.old words.new result }
{
    let word = ahead(s, at);
    let has = first(word, 2);
    let m = store(words, n, COORDINATES, 0, 0, 0, at);
    if has == 0 {
        return Step {
            at: at + 2,
            n: m,
            marks: 0,
        };
    }
    let mut v = behind(word, 2);
    let mut p = at + 2;
    let mut k = m;
    let mut marks: u64 = 0;
    let mut left = has;
    loop {
        let by = bounds_of(left);
        let x = angle(
            words, k, v, p, by.tag, by.most, by.wide, by.degrees, by.narrow,
        );
        if left != 3 {
            return Step {
                at: x.at,
                n: x.n,
                marks: marks | x.marks,
            };
        }
        if x.at == 0 {
            return x;
        }
        v = behind(v, x.at - p);
        p = x.at;
        k = x.n;
        marks = x.marks;
        left = 1;
    }
}
