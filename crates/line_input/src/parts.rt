// What a line is put into as it is read, a part after another.
ghost use Rattle.std.specs.Prelude.{◌≡◌, ◌≤◌, ◌*◌, true, false, List, [], ◌++◌, ℕ, length, Some, Err, IfSome, IfOk, IfErr, IsNone, ◌↔◌};
ghost use Rattle.hexadecimal.specs.Hex.{octets, Decodes};

use hexadecimal::Refusal;
use hexadecimal::stretches::{Digits, more, start, whole};

pub trait Parts {
    // What a part more makes of what there is.
    ghost adds: { Self → List ℕ → Self → Type 0 };

    fn add(&mut self, part: &[u8])
        ensures { adds self.old part.now self.new };
}

// The bytes of a line, as far as the lent ones have room; whether it was longer, a flag since more of the line may still come: `line` makes the Option.
#[derive(Drop)]
pub struct Bytes<'a> {
    space: &'a mut [u8],
    pub len: usize,
    pub long: bool,
    ghost within: { len ≤ length space.now },
}

impl<'a> Bytes<'a> {
    ghost use Rattle.line_input.specs.Parts.{Holds};

    pub fn new(space: &'a mut [u8]) -> Bytes<'a>
        ensures empty { Holds [] result }
        ensures short { result.long ≡ false }
    {
        Bytes {
            space,
            len: 0,
            long: false,
        }
    }

    // The line, if it had room.
    pub fn line(&self) -> Option<&[u8]>
        ensures long { IsNone result ↔ (self.now.long ≡ true) }
        ensures line { (text : List ℕ) → Holds text self.now → IfSome result (λ t. t.now ≡ text) }
    {
        if self.long {
            None
        } else {
            Some(&self.space[..self.len])
        }
    }
}

impl Parts for Bytes<'_> {
    ghost use Rattle.line_input.specs.Parts.{Holds};

    ghost adds = { λ old part new. (text : List ℕ) → Holds text old → Holds (text ++ part) new };

    fn add(&mut self, part: &[u8]) {
        let len = self.len;
        let count = part.len().min(self.space.len() - len);
        self.space[len..len + count].copy_from_slice(&part[..count]);
        self.len = len + count;
        if count < part.len() {
            self.long = true;
        }
    }
}

// The octets of a line in hexadecimal: they are put into the lent frame as its digits come, so that no line is held.
#[derive(Drop)]
pub struct Octets<'a> {
    frame: &'a mut [u8],
    pub digits: Digits,
    ghost within: { digits.taken ≤ length frame.now * 2 },
}

impl<'a> Octets<'a> {
    ghost use Rattle.line_input.specs.Parts.{Fills};

    pub fn new(frame: &'a mut [u8]) -> Octets<'a>
        ensures { Fills [] result }
    {
        Octets {
            frame,
            digits: start(),
        }
    }

    // The octets, if the line has any and they had room.
    pub fn frame(&self) -> Result<&[u8], Refusal>
        ensures octets { (text : List ℕ) → Fills text self.now → IfOk result (λ o. octets text ≡ Some o.now) }
        ensures refused { (text : List ℕ) → Fills text self.now → IfErr result (λ r. Decodes text self.now.frame.now (Err r)) }
    {
        // a `match`: with `?` what is owed of a refusal stays open
        match whole(self.digits) {
            Ok(n) => Ok(&self.frame[..n]),
            Err(refusal) => Err(refusal),
        }
    }
}

impl Parts for Octets<'_> {
    ghost use Rattle.line_input.specs.Parts.{Fills};

    ghost adds = { λ old part new. (text : List ℕ) → Fills text old → Fills (text ++ part) new };

    fn add(&mut self, part: &[u8]) {
        self.digits = more(self.digits, part, self.frame);
    }
}
