// Bits that lie ahead, at the top of a word: where a slice has enough octets, fields are cut off the word one after another, and the slice is not asked again for each.
#![tactic(auto)]

ghost use Rattle.std.specs.Prelude.{◌≡◌, ◌+◌, ◌-◌, ◌*◌, ◌/◌, ◌%◌, ◌^◌, ◌≤◌, ◌<◌, length};
ghost use Rattle.x691.specs.Bits.{bit_of, uint};
ghost use Rattle.ample_bits.specs.Ahead.{Ahead};

use per::octets::four;

// Eight octets as a number, the first the highest.
fn eight(s: &[u8], i: usize) -> u64
    requires { i + 8 ≤ length s.now }
    ensures { result ≡ uint (bit_of s.now) (8 * i) 64 }
{
    // the last four first: in this order too the eight compile to one load
    let low = four(s[i + 4], s[i + 5], s[i + 6], s[i + 7]);
    let high = four(s[i], s[i + 1], s[i + 2], s[i + 3]);
    high * 4294967296 + low
}

// The bits from `at` on: 57 of them at least, whatever bit of its octet `at` is.
pub fn ahead(s: &[u8], at: usize) -> u64
    requires { at / 8 + 8 ≤ length s.now }
    ensures { Ahead s.now at 57 result }
{
    eight(s, at / 8) << (at % 8)
}

// The first n of them, as a number.
pub fn first(v: u64, n: usize) -> u64
    requires { (1 ≤ n) × (n ≤ 64) }
    ensures { result ≡ v / 2 ^ (64 - n) }
{
    v >> (64 - n)
}

// What stands behind the first n.
pub fn behind(v: u64, n: usize) -> u64
    requires { n < 64 }
    ensures { result ≡ v * 2 ^ n % 2 ^ 64 }
{
    v << n
}

// The same where the slice ends before: behind its last octet all bits are 0.
pub fn rest(s: &[u8], at: usize) -> u64
    requires { (8 ≤ length s.now) × (at < 2 ^ 61) }
    ensures { Ahead s.now at 57 result }
{
    let last = s.len() - 8;
    if at / 8 <= last {
        return ahead(s, at);
    }
    let gap = at - last * 8;
    if gap < 64 {
        return eight(s, last) << gap;
    }
    0
}
