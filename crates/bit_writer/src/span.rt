// Bits of other bytes put.
ghost use Rattle.std.specs.Prelude.{◌≡◌, ◌+◌, ◌*◌, ◌^◌, ◌≤◌, ◌<◌, min, length};
ghost use Rattle.x691.specs.Bits.{bit_of, stretch};
ghost use Rattle.bit_writer.specs.Put.{set_bits};

use super::number::put;

// From `at` on the n bits of src from `from` on.
pub fn put_span(out: &mut [u8], at: usize, src: &[u8], from: usize, n: usize)
    requires { (from + n ≤ length src.now * 8) × (from + n < 2 ^ 64) × (at + n < 2 ^ 64) }
    ensures { out.new ≡ set_bits out.old at (stretch (bit_of src.now) from n) }
{
    for i in 0..n.div_ceil(56) {
        let done = i * 56;
        let m = chunk(n - done);
        put(out, at + done, m, per::number::uint(src, from + done, m));
    }
}

// How many of n bits are put at once: seven bytes of them, so that each run begins in its byte where the
// first does.
fn chunk(n: usize) -> usize
    ensures { result ≡ min n 56 }
{
    n.min(56)
}
