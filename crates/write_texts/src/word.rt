// The characters of one word, from its highest octet on.
ghost use Rattle.std.specs.Prelude.{List, ℕ, ◌-◌, ◌≤◌};
ghost use Rattle.x691.specs.Bits.{bits_of};
ghost use Rattle.x691.specs.Encoding.{width, unit_bits};
ghost use Rattle.record_lists.specs.Items.{Item};
ghost use Rattle.pens.specs.Stand.{before, after};
ghost use Rattle.pens.specs.Writes.{Writes};
ghost use Rattle.write_texts.specs.Letters.{in_octet, in_word};

use pens::{Pen, Refused, ink};
use per::width::bits_for;

// The character x, of the n from code c on.
fn write_character(out: &mut [u8], p: Pen, x: u64, n: u64, c: u64) -> Result<Pen, Refused>
    requires { 1 ≤ n }
    ensures { (T : ℕ → List Item) (m : ℕ) → Writes (λ u. bits_of (width (n - 1)) u) (λ R. in_octet n c x R) T m (before p) out.old (after result) out.new }
{
    if x < c {
        return Err(Refused);
    }
    let u = x - c;
    if n <= u {
        return Err(Refused);
    }
    Ok(ink(out, p, bits_for(n - 1), u))
}

// The first k characters of the word w, which has no more.
pub fn write_word(out: &mut [u8], p: Pen, w: u64, k: u64, n: u64, c: u64) -> Result<Pen, Refused>
    requires { (1 ≤ n) × (k ≤ 8) }
    ensures { (T : ℕ → List Item) (m : ℕ) → Writes (λ us. unit_bits n us) (λ R. in_word n c k 8 w R) T m (before p) out.old (after result) out.new }
{
    let mut q = p;
    let mut rest = w;
    for i in 0..k {
        let low = (7 - i) * 8;
        q = write_character(out, q, rest >> low, n, c)?;
        rest = rest % (1 << low);
    }
    if rest == 0 {
        return Ok(q);
    }
    Err(Refused)
}
