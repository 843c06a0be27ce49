// Bits that are put before others that stand behind them already: presence bits, and the number of a list's members.
ghost use Rattle.std.specs.Prelude.{◌^◌, ◌≤◌, ◌<◌, ◌≡◌};
ghost use Rattle.x691.specs.Bits.{bits_of};
ghost use Rattle.bit_writer.specs.Put.{set_bits};
ghost use Rattle.pens.specs.Stand.{before};
ghost use Rattle.pens.specs.Writes.{limit, Skips};

use super::{LIMIT, Pen};
use bit_writer::number::put;

// So many bits are left out, to be put later.
pub fn skip(p: Pen, n: usize) -> Pen
    requires { n < 2 ^ 32 }
    ensures { Skips (before p) n (before result) }
{
    let at = p.at;
    if LIMIT < at {
        return p;
    }
    Pen {
        next: p.next,
        at: at + n,
    }
}

// The n bits of v are put from a place on that the pen has left behind.
pub fn put_at(out: &mut [u8], at: usize, n: usize, v: u64)
    requires { (n ≤ 64) × (v < 2 ^ n) }
    ensures { at ≤ limit → out.new ≡ set_bits out.old at (bits_of n v) }
{
    if LIMIT < at {
        return;
    }
    put(out, at, n, v);
}

// The pen's place, where it counts.
pub fn place(p: Pen) -> usize
    ensures { (p.at ≤ limit → result ≡ p.at) × (result ≤ limit) }
{
    let at = p.at;
    if LIMIT < at {
        return 0;
    }
    at
}
