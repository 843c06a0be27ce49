// The two texts of a NumericString. The source takes its first unit for the digit 0; by X.680 it is the space, and the digits follow: so each character is one less, and the space where it was the digit 0.
#![tactic(auto)]

ghost use Rattle.std.specs.Prelude.{◌≡◌, ◌<◌};
ghost use Rattle.numeric_strings.specs.Spacing.{spaced_octet, spaced_octets};

// Eight characters of the source's text as X.680 has them. An octet without a character is 0, and stays so.
pub fn spaced_eight(v: u64) -> u64
    ensures { result ≡ spaced_octets 8 v }
{
    let mut r: u64 = 0;
    let mut rest = v;
    for k in (0..8u64).rev() {
        let low = k * 8;
        r = r * 256 + spaced_octet(rest >> low);
        rest = rest % (1 << low);
    }
    r
}

fn spaced_octet(x: u64) -> u64
    ensures { (result ≡ spaced_octet x) × (x < 256 → result < 256) }
{
    if x == 0 {
        return 0;
    }
    if x == 48 {
        return 32;
    }
    x - 1
}
