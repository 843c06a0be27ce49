// Few bits, eight at most: one octet has them, or two. The places of the fields of association control are mostly known to the compiler, and then so is which.
ghost use Rattle.std.specs.Prelude.{◌≡◌, ◌+◌, ◌*◌, ◌/◌, ◌%◌, ◌^◌, ◌<◌, ◌≤◌, length};
ghost use Rattle.x691.specs.Bits.{bit_of, uint};
ghost use Rattle.cursor.specs.Place.{Pulls};

use cursor::place::{Cursor, Got, ran_out};
use per::octets::four;

// The n bits of v before its last ones.
fn cut(v: u64, last: usize, n: usize) -> u64
    requires { (last < 64) × (n < 64) }
    ensures { result ≡ v / 2 ^ last % 2 ^ n }
{
    (v >> last) % (1 << n)
}

// The number that the n bits from `at` on spell, if they are there.
fn number(s: &[u8], at: usize, n: usize) -> u64
    requires { n ≤ 8 }
    ensures { at + n ≤ length s.now * 8 → result ≡ uint (bit_of s.now) at n }
{
    let i = at / 8;
    let behind = at % 8 + n;
    if behind <= 8 {
        if i < s.len() {
            return cut(s[i] as u64, 8 - behind, n);
        }
        return 0;
    }
    if i + 1 < s.len() {
        return cut(four(0, 0, s[i], s[i + 1]), 16 - behind, n);
    }
    0
}

// The next n bits as a number, as `cursor::place::bits` gives them.
pub fn few(s: &[u8], c: Cursor, n: usize) -> Got<u64>
    requires { n ≤ 8 }
    ensures { Pulls s.now c n result }
{
    let at = c.at;
    let end = c.end;
    let marks = c.marks;
    if c.why != 0 {
        return Got { v: 0, c: c };
    }
    let left = std::num::wrapping_sub_usize(end, at);
    if n <= left {
        let behind = std::num::wrapping_add_usize(at, n);
        let v = number(s, at, n);
        return Got {
            v: v,
            c: Cursor {
                at: behind,
                end: end,
                why: 0,
                marks: marks,
            },
        };
    }
    let why = ran_out(n - left);
    Got {
        v: 0,
        c: Cursor {
            at: at,
            end: end,
            why: why,
            marks: marks,
        },
    }
}
