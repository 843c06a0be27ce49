// The text of arguments that are numbers, enumerations, procedures and runways. An argument's records start at record i of the lent words.
#![tactic(auto)]

ghost use Rattle.std.specs.Prelude.{◌+◌, ◌^◌, ◌<◌, length};
ghost use Rattle.screen_bytes.specs.Put.{Put};
ghost use Rattle.record_views.specs.View.{records_from};
ghost use Rattle.screen_values.specs.Values.{enumeration, level, speed, degrees, frequency, code, transition, procedure, runway};

use cpdlc_tags::PROCEDURE_TRANSITION;
use phrases::put_line;
use screen_bytes::{put_byte, put_text};
use screen_numbers::{digit, magnitude, put_decimal, put_signed, put_thousandths, put_two_digits};
use screen_records::{put_record_text, second_at, tag_at, text_records, value_at};

// An enumeration by the lines of a table of words.
pub fn put_enumeration(out: &mut [u8], at: usize, words: &[u64], i: usize, table: &[u8]) -> usize
    requires { (at < 2 ^ 56) × (i < 2 ^ 56) × (length table.now < 2 ^ 56) }
    ensures { Put (length table.now + 10) out.old out.new at result (enumeration table.now (records_from i words.now)) }
{
    if second_at(words, i) == 1 {
        return put_text(out, at, b"(extended)");
    }
    put_line(out, at, table, value_at(words, i, 0))
}

pub fn put_level(out: &mut [u8], at: usize, words: &[u64], i: usize) -> usize
    requires { (at < 2 ^ 56) × (i < 2 ^ 56) }
    ensures { Put 24 out.old out.new at result (level (records_from i words.now)) }
{
    let form = value_at(words, i, 0);
    let n = value_at(words, i, 1);
    match form {
        0 => {
            let m = put_signed(out, at, 10, n);
            put_text(out, m, b" FT")
        }
        1 => {
            let m = put_signed(out, at, 1, n);
            put_text(out, m, b" M")
        }
        2 => {
            let m = put_text(out, at, b"FL");
            put_signed(out, m, 1, n)
        }
        _ => {
            let m = put_signed(out, at, 10, n);
            put_text(out, m, b" M")
        }
    }
}

pub fn put_speed(out: &mut [u8], at: usize, words: &[u64], i: usize) -> usize
    requires { (at < 2 ^ 56) × (i < 2 ^ 56) }
    ensures { Put 80 out.old out.new at result (speed (records_from i words.now)) }
{
    let unit = value_at(words, i, 0);
    let n = value_at(words, i, 1);
    if unit < 6 {
        let m = put_signed(out, at, 1, n);
        return put_line(
            out,
            m,
            b" KT IAS\n KM/H IAS\n KT TAS\n KM/H TAS\n KT GS\n KM/H GS\n",
            unit,
        );
    }
    let m = put_byte(out, at, b'M');
    put_thousandths(out, m, n)
}

pub fn put_degrees(out: &mut [u8], at: usize, words: &[u64], i: usize) -> usize
    requires { (at < 2 ^ 56) × (i < 2 ^ 56) }
    ensures { Put 26 out.old out.new at result (degrees (records_from i words.now)) }
{
    let a = put_decimal(out, at, value_at(words, i, 1));
    let b = put_text(out, a, b"\xC2\xB0");
    put_line(out, b, b"M\nT\n", value_at(words, i, 0))
}

pub fn put_frequency(out: &mut [u8], at: usize, words: &[u64], i: usize) -> usize
    requires { (at < 2 ^ 56) × (i < 2 ^ 56) }
    ensures { Put 36 out.old out.new at result (frequency (records_from i words.now)) }
{
    let form = value_at(words, i, 0);
    let n = value_at(words, i, 1);
    match form {
        0 => {
            let m = put_decimal(out, at, n);
            put_text(out, m, b" kHz")
        }
        1 => {
            let m = put_thousandths(out, at, magnitude(n) * 5);
            put_text(out, m, b" MHz")
        }
        2 => {
            let m = put_thousandths(out, at, magnitude(n) * 25);
            put_text(out, m, b" MHz")
        }
        _ => {
            let m = put_text(out, at, b"SAT ");
            put_record_text(out, m, words, i + 1)
        }
    }
}

pub fn put_code(out: &mut [u8], at: usize, words: &[u64], i: usize) -> usize
    requires { (at < 2 ^ 56) × (i < 2 ^ 56) }
    ensures { Put 4 out.old out.new at result (code (records_from i words.now)) }
{
    let a = put_byte(out, at, digit(value_at(words, i, 0)));
    let b = put_byte(out, a, digit(value_at(words, i, 1)));
    let c = put_byte(out, b, digit(value_at(words, i, 2)));
    put_byte(out, c, digit(value_at(words, i, 3)))
}

// The transition of a procedure, if record i has its tag.
fn put_transition(out: &mut [u8], at: usize, words: &[u64], i: usize) -> usize
    requires { (at < 2 ^ 57) × (i < 2 ^ 57) }
    ensures { Put 44 out.old out.new at result (transition (records_from i words.now)) }
{
    if tag_at(words, i, 0) != PROCEDURE_TRANSITION {
        return at;
    }
    let m = put_text(out, at, b" TRANSITION ");
    put_record_text(out, m, words, i)
}

pub fn put_procedure(out: &mut [u8], at: usize, words: &[u64], i: usize) -> usize
    requires { (at < 2 ^ 56) × (i < 2 ^ 56) }
    ensures { Put 128 out.old out.new at result (procedure (records_from i words.now)) }
{
    let a = put_record_text(out, at, words, i + 1);
    let b = put_text(out, a, b" (");
    let c = put_line(
        out,
        b,
        b"ARRIVAL\nAPPROACH\nDEPARTURE\n",
        value_at(words, i, 0),
    );
    let d = put_byte(out, c, b')');
    let k = 1 + text_records(words, i + 1);
    put_transition(out, d, words, i + k)
}

pub fn put_runway(out: &mut [u8], at: usize, words: &[u64], i: usize) -> usize
    requires { (at < 2 ^ 56) × (i < 2 ^ 56) }
    ensures { Put 31 out.old out.new at result (runway (records_from i words.now)) }
{
    let a = put_text(out, at, b"RWY ");
    let b = put_two_digits(out, a, value_at(words, i, 0));
    put_line(out, b, b"L\nR\nC\n", value_at(words, i, 1))
}
