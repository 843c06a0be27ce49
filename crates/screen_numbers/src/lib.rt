// Numbers as text.
#![tactic(auto)]

ghost use Rattle.std.specs.Prelude.{◌≡◌, ◌^◌, ◌≤◌, ◌<◌};
ghost use Rattle.screen_bytes.specs.Put.{Put};
ghost use Rattle.screen_numbers.specs.Numbers.{digit as Numbers·digit, digits, decimal, two_digits, hundredths, thousandths, magnitude as Numbers·magnitude, signed};

use screen_bytes::put_byte;

pub fn put_decimal(out: &mut [u8], at: usize, x: u64) -> usize
    requires { at < 2 ^ 61 }
    ensures { Put 20 out.old out.new at result (decimal x) }
{
    put_digits(out, at, 20, x)
}

fn put_digits(out: &mut [u8], at: usize, k: usize, x: u64) -> usize
    requires { (at < 2 ^ 62) × (k ≤ 20) }
    ensures { Put k out.old out.new at result (digits k x) }
{
    if k == 0 {
        return at;
    }
    if x < 10 {
        return put_byte(out, at, digit(x));
    }
    let m = put_digits(out, at, k - 1, x / 10);
    put_byte(out, m, digit(x))
}

pub fn digit(x: u64) -> u8
    ensures { result ≡ Numbers·digit x }
{
    48 + (x % 10) as u8
}

pub fn put_two_digits(out: &mut [u8], at: usize, x: u64) -> usize
    requires { at < 2 ^ 60 }
    ensures { Put 21 out.old out.new at result (two_digits x) }
{
    if x < 10 {
        let m = put_byte(out, at, b'0');
        return put_decimal(out, m, x);
    }
    put_decimal(out, at, x)
}

pub fn put_hundredths(out: &mut [u8], at: usize, x: u64) -> usize
    requires { at < 2 ^ 60 }
    ensures { Put 23 out.old out.new at result (hundredths x) }
{
    let a = put_decimal(out, at, x / 100);
    let b = put_byte(out, a, b'.');
    let c = put_byte(out, b, digit(x / 10));
    put_byte(out, c, digit(x))
}

pub fn put_thousandths(out: &mut [u8], at: usize, x: u64) -> usize
    requires { at < 2 ^ 60 }
    ensures { Put 24 out.old out.new at result (thousandths x) }
{
    let a = put_decimal(out, at, x / 1000);
    let b = put_byte(out, a, b'.');
    let c = put_byte(out, b, digit(x / 100));
    let d = put_byte(out, c, digit(x / 10));
    put_byte(out, d, digit(x))
}

// The magnitude of a record's number.
pub fn magnitude(v: u64) -> u64
    ensures { (result ≡ Numbers·magnitude v) × (result < 2 ^ 32) }
{
    if v < 9223372036854775808 {
        return v % 4294967296;
    }
    (u64::MAX - v + 1) % 4294967296
}

// A record's number times n.
pub fn put_signed(out: &mut [u8], at: usize, n: u64, v: u64) -> usize
    requires { (at < 2 ^ 60) × (n ≤ 1000) }
    ensures { Put 21 out.old out.new at result (signed n v) }
{
    let x = magnitude(v) * n;
    if v < 9223372036854775808 {
        return put_decimal(out, at, x);
    }
    let m = put_byte(out, at, b'-');
    put_decimal(out, m, x)
}
