// The text of coordinates, whose records start at record i of the lent words.
#![tactic(auto)]

ghost use Rattle.std.specs.Prelude.{◌≡◌, ◌+◌, ◌^◌, ◌≤◌, ◌<◌, length};
ghost use Rattle.screen_bytes.specs.Put.{Put};
ghost use Rattle.record_views.specs.View.{records_from};
ghost use Rattle.screen_coordinates.specs.Coordinates.{angle, angle_records, longitude_at, latitude, longitude, between, coordinates, coordinates_records};

use cpdlc_tags::{LATITUDE, LONGITUDE};
use phrases::put_line;
use screen_bytes::{put_byte, put_text};
use screen_numbers::{put_decimal, put_hundredths, put_thousandths};
use screen_records::{tag_at, value_at};

// A latitude or a longitude, with the letters of its sides as lines.
fn put_angle(out: &mut [u8], at: usize, words: &[u64], i: usize, sides: &[u8]) -> usize
    requires { (at < 2 ^ 58) × (i < 2 ^ 58) × (length sides.now < 2 ^ 58) }
    ensures { Put (64 + length sides.now) out.old out.new at result (angle sides.now (records_from i words.now)) }
{
    let form = value_at(words, i, 0);
    let x = value_at(words, i, 1);
    let y = value_at(words, i, 2);
    match form {
        0 => {
            let a = put_thousandths(out, at, x);
            let b = put_text(out, a, b"\xC2\xB0");
            put_line(out, b, sides, y)
        }
        1 => {
            let a = put_decimal(out, at, x);
            let b = put_text(out, a, b"\xC2\xB0");
            let c = put_hundredths(out, b, y);
            let d = put_byte(out, c, b'\'');
            put_line(out, d, sides, value_at(words, i, 3))
        }
        _ => {
            let a = put_decimal(out, at, x);
            let b = put_text(out, a, b"\xC2\xB0");
            let c = put_decimal(out, b, y);
            let d = put_byte(out, c, b'\'');
            let e = put_decimal(out, d, value_at(words, i, 3));
            let f = put_byte(out, e, b'"');
            put_line(out, f, sides, value_at(words, i, 4))
        }
    }
}

// How many records it has.
fn angle_records(words: &[u64], i: usize) -> usize
    requires { i < 2 ^ 58 }
    ensures { (result ≡ angle_records (records_from i words.now)) × (result ≤ 5) }
{
    let form = value_at(words, i, 0);
    if form < 2 {
        return 3 + form as usize;
    }
    5
}

// The place behind the latitude.
fn longitude_at(words: &[u64], i: usize) -> usize
    requires { i < 2 ^ 57 }
    ensures { (result ≡ longitude_at (records_from i words.now)) × (result ≤ 6) }
{
    if tag_at(words, i, 1) == LATITUDE {
        return 1 + angle_records(words, i + 1);
    }
    1
}

fn put_latitude(out: &mut [u8], at: usize, words: &[u64], i: usize) -> usize
    requires { (at < 2 ^ 57) × (i < 2 ^ 57) }
    ensures { Put 68 out.old out.new at result (latitude (records_from i words.now)) }
{
    if tag_at(words, i, 1) == LATITUDE {
        return put_angle(out, at, words, i + 1, b"N\nS\n");
    }
    at
}

fn put_longitude(out: &mut [u8], at: usize, words: &[u64], i: usize) -> usize
    requires { (at < 2 ^ 57) × (i < 2 ^ 57) }
    ensures { Put 68 out.old out.new at result (longitude (records_from i words.now)) }
{
    if tag_at(words, i, 0) == LONGITUDE {
        return put_angle(out, at, words, i, b"E\nW\n");
    }
    at
}

// A space, if both are there, by their tags.
fn put_between(out: &mut [u8], at: usize, t: u64, u: u64) -> usize
    requires { at < 2 ^ 57 }
    ensures { Put 1 out.old out.new at result (between t u) }
{
    if t == LATITUDE {
        if u == LONGITUDE {
            return put_byte(out, at, b' ');
        }
    }
    at
}

pub fn put_coordinates(out: &mut [u8], at: usize, words: &[u64], i: usize) -> usize
    requires { (at < 2 ^ 56) × (i < 2 ^ 56) }
    ensures { Put 137 out.old out.new at result (coordinates (records_from i words.now)) }
{
    let k = longitude_at(words, i);
    let t = tag_at(words, i, 1);
    let u = tag_at(words, i, k);
    let a = put_latitude(out, at, words, i);
    let b = put_between(out, a, t, u);
    put_longitude(out, b, words, i + k)
}

// How many records they have.
pub fn coordinates_records(words: &[u64], i: usize) -> usize
    requires { i < 2 ^ 56 }
    ensures { (result ≡ coordinates_records (records_from i words.now)) × (result ≤ 11) }
{
    let k = longitude_at(words, i);
    if tag_at(words, i, k) == LONGITUDE {
        return k + angle_records(words, i + k);
    }
    k
}
