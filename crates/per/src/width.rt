// How many bits a number or an index takes.
ghost use Rattle.std.specs.Prelude.{◌≡◌, ◌-◌, ◌≤◌};
ghost use Rattle.x691.specs.Encoding.{width};

// The fewest bits that hold d.
pub fn bits_for(d: u64) -> usize
    ensures { (result ≡ width d) × (result ≤ 64) }
{
    (64 - u64::leading_zeros(d)) as usize
}

// The fewest bits that hold every index into n things, which are numbered from 0.
pub fn index_width(n: usize) -> usize
    requires { (1 ≤ n) × (n ≤ 256) }
    ensures { (result ≡ width (n - 1)) × (result ≤ 8) }
{
    bits_for((n - 1) as u64)
}
