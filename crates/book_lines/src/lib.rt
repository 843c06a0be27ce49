// One line of a saved book.
#![tactic(auto)]

ghost use Rattle.std.specs.Prelude.{◌≡◌, ◌+◌, ◌*◌, ◌≤◌, ◌<◌, length};
ghost use Rattle.book_entries.specs.Entries.{size};
ghost use Rattle.book_lines.specs.Lines.{digit as Lines·digit, digits, put, line};

use book_entries::{Entry, unit};

// The line of an entry from byte `at` on; the other bytes stay.
pub fn put_line(out: &mut [u8], at: usize, e: Entry)
    requires { (2 ≤ size e) × (size e ≤ 8) × (at + (size e * 2 + 14) ≤ length out.old) }
    ensures { out.new ≡ put at (line e) out.old }
{
    let width = name_digits(e);
    put_digits(out, at, width, e.text() / unit(e.size()));
    put_digits(out, at + width, 8, u64::from(e.number));
    put_digits(out, at + width + 8, 5, u64::from(e.bytes()));
    out[at + width + 13] = b'\n';
}

// How many digits a name has.
pub fn name_digits(e: Entry) -> usize
    ensures { result ≡ size e * 2 }
{
    (e.size() * 2) as usize
}

// The last n digits of x from byte `at` on.
fn put_digits(out: &mut [u8], at: usize, n: usize, x: u64)
    requires { at + n ≤ length out.old }
    ensures { out.new ≡ put at (digits n x) out.old }
{
    let mut rest = x;
    for k in (0..n).rev() {
        out[at + k] = digit(rest % 16);
        rest /= 16;
    }
}

// The character of a digit.
fn digit(d: u64) -> u8
    requires { d < 16 }
    ensures { result ≡ Lines·digit d }
{
    if d < 10 {
        return d as u8 + 48;
    }
    d as u8 + 55
}
