// Characters of so many bits each, put into octets of their own.
ghost use Rattle.std.specs.Prelude.{◌≡◌, ◌-◌, ◌*◌, ◌%◌, ◌^◌, ◌≤◌, ◌<◌};
ghost use Rattle.tell.specs.Characters.{widened};

// Eight characters of `width` bits, one by one.
pub fn spread(v: u64, width: usize) -> u64
    requires { (width ≤ 8) × (v < 2 ^ (8 * width)) }
    ensures { result ≡ widened width 8 8 v }
{
    let mut r: u64 = 0;
    for k in (0..8).rev() {
        r = r * 256 + (v >> (k * width)) % (1 << width);
    }
    r
}

// Eight characters of seven bits, which nearly all have, at once. They are halved three times: into fours, these into twos, and these into single ones.
// Each time the higher halves, which a mask finds, move up to make room: by four bits, by two and by one.
pub fn spread_sevens(v: u64) -> u64
    requires { v < 2 ^ 56 }
    ensures { result ≡ widened 7 8 8 v }
{
    let fours = v + (v & 0x00ff_ffff_f000_0000) * 15;
    let twos = fours + (fours & 0x0fff_c000_0fff_c000) * 3;
    twos + (twos & 0x3f80_3f80_3f80_3f80)
}

// So many of them, the first in the highest octet, and zero for each that is missing of the eight.
pub fn top_sevens(v: u64, k: usize) -> u64
    requires { (v < 2 ^ 56) × (1 ≤ k) × (k ≤ 8) }
    ensures { result ≡ widened 7 8 8 v * 2 ^ (64 - 8 * k) % 2 ^ 64 }
{
    spread_sevens(v) << (64 - 8 * k)
}
