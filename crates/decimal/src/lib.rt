// A number in decimal.
#![tactic(auto)]

ghost use Rattle.std.specs.Prelude.{◌≡◌, [], ◌∷◌};
ghost use Rattle.decimal.specs.Decimal.{onward, numeral};

// The number of 64 bits that a text stands for.
pub fn number(text: &[u8]) -> Option<u64>
    ensures { result ≡ numeral text.now }
{
    if text.is_empty() {
        return None;
    }
    let mut value = 0;
    for &c in text {
        value = with_digit(value, c)?;
    }
    Some(value)
}

// The number n with a digit more.
fn with_digit(n: u64, c: u8) -> Option<u64>
    ensures { result ≡ onward n (c ∷ []) }
{
    if !c.is_ascii_digit() {
        return None;
    }
    n.checked_mul(10)?.checked_add(u64::from(c - b'0'))
}
