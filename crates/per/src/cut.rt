// Bits cut out of a number, and the octets to make that number of.
ghost use Rattle.std.specs.Prelude.{◌≡◌, ◌+◌, ◌-◌, ◌/◌, ◌%◌, ◌^◌, ◌<◌, ◌≤◌, min};

// The octet from which on so many are taken for the bits from `at` on: the bits' own first, or the
// first of the last ones.
pub fn first(len: usize, at: usize, count: usize) -> usize
    requires { count ≤ len }
    ensures { result ≡ min (at / 8) (len - count) }
{
    (at / 8).min(len - count)
}

// The n bits behind the first `skip` of v, which has `size`. Where it has fewer the shift is taken
// modulo 64, and the number is any below 2 ^ n.
pub fn cut(v: u64, size: usize, skip: usize, n: usize) -> u64
    requires { (size ≤ 64) × (n ≤ size) × (n < 64) }
    ensures { (skip + n ≤ size → result ≡ v / 2 ^ (size - (skip + n)) % 2 ^ n) × (result < 2 ^ n) }
{
    (v >> (std::num::wrapping_sub_usize(size - n, skip) % 64)) % (1 << n)
}
