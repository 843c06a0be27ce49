// A count of octets and a count of bits, as two types, so that neither passes for the other.
ghost use Rattle.std.specs.Prelude.{◌≡◌, ◌*◌, ◌^◌, ◌<◌};

#[derive(Clone, Copy)]
pub struct Octets(pub usize);

#[derive(Clone, Copy)]
pub struct Bits(pub usize);

impl Octets {
    pub fn bits(self) -> Bits
        requires { self.0 * 8 < 2 ^ 64 }
        ensures { result.0 ≡ self.0 * 8 }
    {
        Bits(self.0 * 8)
    }
}
