// Bits put into one byte.
ghost use Rattle.std.specs.Prelude.{◌≡◌, ◌+◌, ◌-◌, ◌*◌, ◌/◌, ◌%◌, ◌^◌, ◌≤◌, ◌<◌, min};
ghost use Rattle.x691.specs.Bits.{bits_of};
ghost use Rattle.bit_writer.specs.Put.{set_bits};

// How many of the n bits from `at` on lie in the byte of the first.
pub fn in_first(at: usize, n: usize) -> usize
    ensures { result ≡ min n (8 - at % 8) }
{
    n.min(8 - at % 8)
}

// The m bits of x from `at` on, which one byte holds.
pub fn put_in_one(out: &mut [u8], at: usize, m: usize, x: u64)
    requires { (at % 8 + m ≤ 8) × (x < 2 ^ m) }
    ensures { out.new ≡ set_bits out.old at (bits_of m x) }
{
    let i = at / 8;
    if i < out.len() {
        out[i] = changed(out[i], 8 - (at % 8 + m), m, x);
    }
}

// The byte v with the m bits above its lowest `low` made those of x.
fn changed(v: u8, low: usize, m: usize, x: u64) -> u8
    requires { (low + m ≤ 8) × (x < 2 ^ m) }
    ensures { result ≡ v / 2 ^ (low + m) * 2 ^ (low + m) + x * 2 ^ low + v % 2 ^ low }
{
    let w = v as u64;
    let above = low + m;
    (((w >> above) << above) + (x << low) + w % (1 << low)) as u8
}
