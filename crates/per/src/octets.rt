// Octets as one number.
ghost use Rattle.std.specs.Prelude.{◌≡◌, ◌+◌, ◌*◌, ◌^◌, ◌<◌};

fn pair(a: u8, b: u8) -> u64
    ensures { (result ≡ a * 256 + b) × (result < 2 ^ 16) }
{
    a as u64 * 256 + b as u64
}

// Four octets, the first the highest. Of a slice they compile to one load.
pub fn four(a: u8, b: u8, c: u8, d: u8) -> u64
    ensures { (result ≡ (a * 256 + b) * 65536 + (c * 256 + d)) × (result < 2 ^ 32) }
{
    pair(a, b) * 65536 + pair(c, d)
}
