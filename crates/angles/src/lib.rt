// Latitude and longitude: a form, one to three numbers, and a side. They differ in their ranges and tags alone.
#![tactic(auto)]

ghost use Rattle.std.specs.Prelude.{◌≡◌};
ghost use Rattle.field_ranges.specs.Ranges.{Listed};
ghost use Rattle.angles.specs.Angles.{Forms, Angles, MaybeAngles, Pairs, MaybePairs};

use cursor::place::{Cursor, Got, bits, presence, stop};
use field_ranges::table::{
    HUNDREDTHS, LATITUDE_DEGREES, LATITUDE_THOUSANDTHS, LONGITUDE_DEGREES, LONGITUDE_THOUSANDTHS,
    MINUTES, Range, SIDE,
};
use ranged_numbers::ranged;

// What stands behind the index of a form: thousandths of a degree; degrees and hundredths of a minute; or degrees, minutes and seconds.
#[derive(Clone, Copy)]
pub enum Form {
    Thousandths(u64),
    Hundredths(u64, u64),
    Seconds(u64, u64, u64),
}

// at: where the form starts. The numbers and the side follow it, each behind the bits of the one before.
#[derive(Clone, Copy)]
pub struct Angle {
    pub at: usize,
    pub form: Form,
    pub side: u64,
}

// at: where the pair starts, its presence bits included
#[derive(Clone, Copy)]
pub struct Pair {
    pub at: usize,
    pub latitude: Option<Angle>,
    pub longitude: Option<Angle>,
}

// The form and its numbers, by the ranges of the thousandths and of the degrees.
fn read_form(s: &[u8], c: Cursor, thousandths: Range, degrees: Range) -> Got<Form>
    requires { Listed thousandths × Listed degrees }
    ensures { Forms thousandths.row degrees.row s.now c result }
{
    let index = bits(s, c, 2);
    match index.v {
        0 => ranged(s, index.c, thousandths).map(Form::Thousandths),
        1 => {
            let a = ranged(s, index.c, degrees);
            let b = ranged(s, a.c, HUNDREDTHS);
            Got {
                v: Form::Hundredths(a.v, b.v),
                c: b.c,
            }
        }
        2 => {
            let a = ranged(s, index.c, degrees);
            let b = ranged(s, a.c, MINUTES);
            let d = ranged(s, b.c, MINUTES);
            Got {
                v: Form::Seconds(a.v, b.v, d.v),
                c: d.c,
            }
        }
        // not listed: the reading stops, and nobody looks at the form
        _ => Got {
            v: Form::Thousandths(0),
            c: stop(index.c, 5, 1),
        },
    }
}

fn read_angle(s: &[u8], c: Cursor, thousandths: Range, degrees: Range) -> Got<Angle>
    requires { Listed thousandths × Listed degrees }
    ensures { Angles thousandths.row degrees.row s.now c result }
{
    let form = read_form(s, c, thousandths, degrees);
    let side = ranged(s, form.c, SIDE);
    Got {
        v: Angle {
            at: c.at,
            form: form.v,
            side: side.v,
        },
        c: side.c,
    }
}

// An angle that stands there unless its presence bit is clear.
fn read_maybe_angle(
    s: &[u8],
    c: Cursor,
    has: u64,
    thousandths: Range,
    degrees: Range,
) -> Got<Option<Angle>>
    requires { Listed thousandths × Listed degrees }
    ensures { MaybeAngles has thousandths.row degrees.row s.now c result }
{
    if has == 0 {
        return Got { v: None, c };
    }
    read_angle(s, c, thousandths, degrees).map(Some)
}

// Latitude and longitude, each of which may be absent.
pub fn read_latlon(s: &[u8], c: Cursor) -> Got<Pair>
    ensures { Pairs s.now c result }
{
    let flags = presence(s, c, 2);
    let latitude = read_maybe_angle(
        s,
        flags.c,
        flags.v / 2 % 2,
        LATITUDE_THOUSANDTHS,
        LATITUDE_DEGREES,
    );
    let longitude = read_maybe_angle(
        s,
        latitude.c,
        flags.v % 2,
        LONGITUDE_THOUSANDTHS,
        LONGITUDE_DEGREES,
    );
    Got {
        v: Pair {
            at: c.at,
            latitude: latitude.v,
            longitude: longitude.v,
        },
        c: longitude.c,
    }
}

pub fn read_maybe_latlon(s: &[u8], c: Cursor, has: u64) -> Got<Option<Pair>>
    ensures { MaybePairs has s.now c result }
{
    let absent = Got { v: None, c };
    if has == 0 {
        return absent;
    }
    read_latlon(s, c).map(Some)
}
