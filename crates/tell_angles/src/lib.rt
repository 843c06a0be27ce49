// The records of latitudes and longitudes, put into the lent words behind the first n.
#![tactic(auto)]

ghost use Rattle.std.specs.Prelude.{◌^◌, ◌<◌};
ghost use Rattle.records.specs.Told.{Told};
ghost use Rattle.angles.specs.Angles.{angle_recs, if_there, pair_recs, maybe_pair_recs};

use angles::{Angle, Form, Pair};
use cpdlc_tags::{COORDINATES, LATITUDE, LONGITUDE};
use field_ranges::table::{
    HUNDREDTHS, LATITUDE_DEGREES, LATITUDE_THOUSANDTHS, LONGITUDE_DEGREES, LONGITUDE_THOUSANDTHS,
    MINUTES,
};
use records::emit;

// The seven tags of an angle follow one another, from `tag` on, and so do its places: the form takes 2 bits, `thousandths` and `degrees` say what those take, and the others take the widths of their ranges.
fn tell_angle(
    words: &mut [u64],
    n: usize,
    element: u64,
    tag: u64,
    thousandths: usize,
    degrees: usize,
    x: Angle,
) -> usize
    requires { (n < 2 ^ 31) × (tag < 256) }
    ensures { Told 5 words.old words.new n result (angle_recs thousandths degrees tag x element) }
{
    let first_at = std::num::wrapping_add_usize(x.at, 2);
    match x.form {
        Form::Thousandths(first) => {
            let m = emit(words, n, tag, element, 0, 0, x.at);
            let a = emit(words, m, tag + 1, element, first, 0, first_at);
            let side_at = std::num::wrapping_add_usize(first_at, thousandths);
            emit(words, a, tag + 6, element, x.side, 0, side_at)
        }
        Form::Hundredths(first, second) => {
            let m = emit(words, n, tag, element, 1, 0, x.at);
            let a = emit(words, m, tag + 2, element, first, 0, first_at);
            let second_at = std::num::wrapping_add_usize(first_at, degrees);
            let b = emit(words, a, tag + 3, element, second, 0, second_at);
            let side_at = std::num::wrapping_add_usize(second_at, HUNDREDTHS.width());
            emit(words, b, tag + 6, element, x.side, 0, side_at)
        }
        Form::Seconds(first, second, third) => {
            let m = emit(words, n, tag, element, 2, 0, x.at);
            let a = emit(words, m, tag + 2, element, first, 0, first_at);
            let second_at = std::num::wrapping_add_usize(first_at, degrees);
            let b = emit(words, a, tag + 4, element, second, 0, second_at);
            let third_at = std::num::wrapping_add_usize(second_at, MINUTES.width());
            let d = emit(words, b, tag + 5, element, third, 0, third_at);
            let side_at = std::num::wrapping_add_usize(third_at, MINUTES.width());
            emit(words, d, tag + 6, element, x.side, 0, side_at)
        }
    }
}

fn tell_maybe_angle(
    words: &mut [u64],
    n: usize,
    element: u64,
    tag: u64,
    thousandths: usize,
    degrees: usize,
    x: Option<Angle>,
) -> usize
    requires { (n < 2 ^ 31) × (tag < 256) }
    ensures { Told 5 words.old words.new n result (if_there (λ a. angle_recs thousandths degrees tag a element) x) }
{
    match x {
        None => n,
        Some(angle) => tell_angle(words, n, element, tag, thousandths, degrees, angle),
    }
}

pub fn tell_pair(words: &mut [u64], n: usize, element: u64, x: Pair) -> usize
    requires { n < 2 ^ 30 }
    ensures { Told 11 words.old words.new n result (pair_recs x element) }
{
    let a = emit(words, n, COORDINATES, element, 0, 0, x.at);
    let b = tell_maybe_angle(
        words,
        a,
        element,
        LATITUDE,
        LATITUDE_THOUSANDTHS.width(),
        LATITUDE_DEGREES.width(),
        x.latitude,
    );
    tell_maybe_angle(
        words,
        b,
        element,
        LONGITUDE,
        LONGITUDE_THOUSANDTHS.width(),
        LONGITUDE_DEGREES.width(),
        x.longitude,
    )
}

pub fn tell_maybe_pair(words: &mut [u64], n: usize, element: u64, x: Option<Pair>) -> usize
    requires { n < 2 ^ 30 }
    ensures { Told 11 words.old words.new n result (maybe_pair_recs x element) }
{
    match x {
        None => n,
        Some(pair) => tell_pair(words, n, element, pair),
    }
}
