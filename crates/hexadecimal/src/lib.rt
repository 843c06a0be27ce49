// Octets in hexadecimal, in capitals or not.
#![tactic(auto)]

ghost use Rattle.std.specs.Prelude.{◌≡◌, ◌<◌, IfSome};
ghost use Rattle.hexadecimal.specs.Hex.{Decodes};
ghost use Rattle.hexadecimal.specs.Hex.{digit as Hex·digit};

use stretches::{more, start, whole};

pub mod stretches; // stretches.rt: a text that comes in stretches

// Why a text has no octets: it has more characters than two an octet of the frame, whatever they are; or a digit stands alone, or another character is met.
#[derive(Clone, Copy)]
pub enum Refusal {
    TooLong,
    NotHexadecimal,
}

// The octets go to the front of out: the text is one stretch. How many they are.
pub fn decode(text: &[u8], out: &mut [u8]) -> Result<usize, Refusal>
    ensures { Decodes text.now out.new result }
{
    whole(more(start(), text, out))
}

// A digit's value, `A` and `a` being 10.
fn digit(c: u8) -> Option<u8>
    ensures value { result ≡ Hex·digit c }
    ensures low { IfSome result (λ d. d < 16) }
{
    match c {
        b'0'..=b'9' => Some(c - b'0'),
        b'A'..=b'F' => Some(c - b'A' + 10),
        b'a'..=b'f' => Some(c - b'a' + 10),
        _ => None,
    }
}
