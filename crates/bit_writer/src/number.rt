// A number put as so many bits, the highest first.
ghost use Rattle.std.specs.Prelude.{◌≡◌, ◌+◌, ◌^◌, ◌≤◌, ◌<◌};
ghost use Rattle.x691.specs.Bits.{bits_of};
ghost use Rattle.bit_writer.specs.Put.{set_bits};

use super::byte::{in_first, put_in_one};

// The n bits of v from `at` on. Each byte that they touch is written once.
pub fn put(out: &mut [u8], at: usize, n: usize, v: u64)
    requires { (n ≤ 64) × (v < 2 ^ n) × (at + n < 2 ^ 64) }
    ensures { out.new ≡ set_bits out.old at (bits_of n v) }
{
    // The pieces are what each byte has room for, the first and the last fewer bits than eight: a `for` over bytes would say those two again.
    let mut place = at;
    let mut left = n;
    let mut rest = v;
    while left > 0 {
        let m = in_first(place, left);
        left -= m;
        put_in_one(out, place, m, rest >> left);
        rest = rest % (1 << left);
        place += m;
    }
}
