// The records of the small values, put into the lent words behind the first n. Where a value may have several tags they are parameters.
#![tactic(auto)]

ghost use Rattle.std.specs.Prelude.{◌<◌, ◌^◌};
ghost use Rattle.records.specs.Told.{Told};
ghost use Rattle.quantities.specs.Records.{quantity_recs};
ghost use Rattle.enumerations.specs.Records.{name_recs, triple_recs};
ghost use Rattle.codes_runways.specs.Records.{code_recs, runway_recs};

use codes_runways::{Code, Runway};
use cpdlc_tags::{CODE_DIGIT, SPEED_TYPE};
use enumerations::{Name, Triple};
use quantities::Quantity;
use records::emit;

pub fn tell_quantity(
    words: &mut [u64],
    n: usize,
    element: u64,
    kind: u64,
    number: u64,
    x: Quantity,
) -> usize
    requires { n < 2 ^ 31 }
    ensures { Told 2 words.old words.new n result (quantity_recs kind number x element) }
{
    let m = emit(words, n, kind, element, x.kind, 0, x.kind_at);
    emit(words, m, number, element, x.number, 0, x.number_at)
}

pub fn tell_name(words: &mut [u64], n: usize, element: u64, tag: u64, x: Name) -> usize
    requires { n < 2 ^ 31 }
    ensures { Told 1 words.old words.new n result (name_recs tag x element) }
{
    emit(words, n, tag, element, x.value, x.second, x.at)
}

pub fn tell_triple(words: &mut [u64], n: usize, element: u64, x: Triple) -> usize
    requires { n < 2 ^ 30 }
    ensures { Told 3 words.old words.new n result (triple_recs x element) }
{
    let a = tell_name(words, n, element, SPEED_TYPE, x.first);
    let b = tell_name(words, a, element, SPEED_TYPE, x.second);
    tell_name(words, b, element, SPEED_TYPE, x.third)
}

pub fn tell_code(words: &mut [u64], n: usize, element: u64, x: Code) -> usize
    requires { n < 2 ^ 31 }
    ensures { Told 4 words.old words.new n result (code_recs x element) }
{
    let a = emit(words, n, CODE_DIGIT, element, x.first, 0, x.first_at);
    let b = emit(words, a, CODE_DIGIT, element, x.second, 0, x.second_at);
    let d = emit(words, b, CODE_DIGIT, element, x.third, 0, x.third_at);
    emit(words, d, CODE_DIGIT, element, x.fourth, 0, x.fourth_at)
}

pub fn tell_runway(
    words: &mut [u64],
    n: usize,
    element: u64,
    direction: u64,
    side: u64,
    x: Runway,
) -> usize
    requires { n < 2 ^ 31 }
    ensures { Told 2 words.old words.new n result (runway_recs direction side x element) }
{
    let m = emit(words, n, direction, element, x.direction, 0, x.direction_at);
    emit(words, m, side, element, x.side, 0, x.side_at)
}
