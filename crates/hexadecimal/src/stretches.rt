// A text in hexadecimal that comes in stretches: its octets are put into a frame as they come.
ghost use Rattle.std.specs.Prelude.{List, [], ◌∷◌, ◌++◌, ◌≡◌, ℕ, ◌+◌, ◌*◌, ◌/◌, ◌≤◌, ◌<◌, length, IfOk};
ghost use Rattle.hexadecimal.specs.Hex.{Decodes};
ghost use Rattle.hexadecimal.specs.Stretches.{SoFar};

use super::{Refusal, digit};

// What was taken so far: how many characters, no more than the frame has room for; why the text has no octets, where that is known. A digit that waits stands in the higher half of its octet.
#[derive(Clone, Copy)]
pub struct Digits {
    pub taken: usize,
    pub refusal: Option<Refusal>,
}

// Of nothing.
pub fn start() -> Digits
    ensures none { result.taken ≡ 0 }
    ensures so_far { (frame : List ℕ) → SoFar [] frame result }
{
    Digits {
        taken: 0,
        refusal: None,
    }
}

// The next stretch of the text.
pub fn more(digits: Digits, stretch: &[u8], frame: &mut [u8]) -> Digits
    requires { digits.taken ≤ length frame.old * 2 }
    ensures within { result.taken ≤ length frame.old * 2 }
    ensures so_far { (text : List ℕ) → SoFar text frame.old digits → SoFar (text ++ stretch.now) frame.new result }
{
    let mut digits = digits;
    for &c in stretch {
        digits = one(digits, c, frame);
    }
    digits
}

// The next character.
fn one(digits: Digits, c: u8, frame: &mut [u8]) -> Digits
    requires { digits.taken ≤ length frame.old * 2 }
    ensures within { result.taken ≤ length frame.old * 2 }
    ensures so_far { (text : List ℕ) → SoFar text frame.old digits → SoFar (text ++ (c ∷ [])) frame.new result }
{
    let n = digits.taken;
    let at = n / 2;
    if at == frame.len() {
        return Digits {
            taken: n,
            refusal: Some(Refusal::TooLong),
        };
    }
    let Some(d) = digit(c) else {
        return Digits {
            taken: n + 1,
            refusal: Some(Refusal::NotHexadecimal),
        };
    };
    frame[at] = if n % 2 == 0 {
        d * 16
    } else {
        joined(frame[at], d)
    };
    Digits {
        taken: n + 1,
        refusal: digits.refusal,
    }
}

// The higher half of an octet, and its lower half.
fn joined(octet: u8, d: u8) -> u8
    requires { d < 16 }
    ensures { result ≡ octet / 16 * 16 + d }
{
    octet / 16 * 16 + d
}

// How many octets the text has: a digit that still waits has none.
pub fn whole(digits: Digits) -> Result<usize, Refusal>
    ensures within { IfOk result (λ n. n * 2 ≤ digits.taken) }
    ensures came { (text frame : List ℕ) → digits.taken ≤ length frame * 2 → SoFar text frame digits → Decodes text frame result }
{
    match digits.refusal {
        Some(refusal) => Err(refusal),
        None if digits.taken % 2 == 1 => Err(Refusal::NotHexadecimal),
        None => Ok(digits.taken / 2),
    }
}
