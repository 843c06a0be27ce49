// The number that bits spell, the first the highest. It is cut out of four or eight octets, which one
// load brings: those from the bits' own first octet on, or the slice's last.
ghost use Rattle.std.specs.Prelude.{◌≡◌, ◌+◌, ◌*◌, ◌^◌, ◌<◌, ◌≤◌, length};
ghost use Rattle.x691.specs.Bits.{bit_of, uint};

use super::cut::{cut, first};
use super::octets::four;

// The number that the n bits from `at` on spell, if they are there. If not it is any below 2 ^ n.
pub fn uint(s: &[u8], at: usize, n: usize) -> u64
    requires { n ≤ 64 }
    ensures { (at + n ≤ length s.now * 8 → result ≡ uint (bit_of s.now) at n) × (result < 2 ^ n) }
{
    if n <= 25 {
        if 4 <= s.len() {
            return near(s, at, n);
        }
    }
    wide(s, at, n)
}

// Few bits, out of four octets.
fn near(s: &[u8], at: usize, n: usize) -> u64
    requires { (n ≤ 25) × (4 ≤ length s.now) }
    ensures { (at + n ≤ length s.now * 8 → result ≡ uint (bit_of s.now) at n) × (result < 2 ^ n) }
{
    let i = first(s.len(), at, 4);
    cut(four(s[i], s[i + 1], s[i + 2], s[i + 3]), 32, at - i * 8, n)
}

// Many bits, or a slice of few octets. The slice is not handed on: so who calls this need not keep it in memory.
pub fn wide(s: &[u8], at: usize, n: usize) -> u64
    requires { n ≤ 64 }
    ensures { (at + n ≤ length s.now * 8 → result ≡ uint (bit_of s.now) at n) × (result < 2 ^ n) }
{
    let mut i = at / 8;
    let mut skip = at % 8;
    if i < s.len() {
        if skip + n <= 8 {
            return cut(s[i] as u64, 8, skip, n);
        }
    }
    if 8 <= s.len() {
        if n <= 57 {
            let from = first(s.len(), at, 8);
            // the last four first: in this order too the eight compile to one load
            let low = four(s[from + 4], s[from + 5], s[from + 6], s[from + 7]);
            let high = four(s[from], s[from + 1], s[from + 2], s[from + 3]);
            return cut(high * 4294967296 + low, 64, at - from * 8, n);
        }
    }
    // octet by octet: what each has of the bits
    let mut v: u64 = 0;
    let mut left = n;
    while 0 < left {
        if s.len() <= i {
            return 0;
        }
        let take = (8 - skip).min(left);
        v = (v << take) + cut(s[i] as u64, 8, skip, take);
        left = left - take;
        skip = 0;
        i += 1;
    }
    v
}
