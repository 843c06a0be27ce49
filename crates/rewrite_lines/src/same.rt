// Whether bits are the same.
ghost use Rattle.std.specs.Prelude.{true, ◌≡◌, ◌*◌, ◌≤◌, length};
ghost use Rattle.rewrite_lines.specs.Same.{SameBits, SameMessage};

use per::number::uint;

// Whether the bits written are those of the frame up to its reach, and the last byte is filled with zero bits.
pub fn same_message(written: &[u8], bits: usize, frame: &[u8], reach: usize) -> bool
    ensures { (result ≡ true → SameMessage written.now bits frame.now reach) × (SameMessage written.now bits frame.now reach → result ≡ true) }
{
    if bits != reach {
        return false;
    }
    let padding = (8 - bits % 8) % 8;
    let need = bits / 8 + (bits % 8 + 7) / 8;
    if written.len() < need {
        return false;
    }
    if frame.len() < need {
        return false;
    }
    if uint(written, bits, padding) != 0 {
        return false;
    }
    same_bits(written, frame, bits)
}

// Whether the first n bits are the same.
fn same_bits(a: &[u8], b: &[u8], n: usize) -> bool
    requires { (n ≤ length a.now * 8) × (n ≤ length b.now * 8) }
    ensures { (result ≡ true → SameBits a.now b.now n) × (SameBits a.now b.now n → result ≡ true) }
{
    for i in 0..n {
        if uint(a, i, 1) != uint(b, i, 1) {
            return false;
        }
    }
    true
}
