// Numbers and names: each is one record, and the bits of what it is above its lowest.
#![tactic(auto)]

ghost use Rattle.std.specs.Prelude.{◌≡◌, ℕ, ◌*◌, ◌^◌, ◌<◌, ◌≤◌, false, [], ◌∷◌, length};
ghost use Rattle.atn.specs.Format.{num, listed, name};
ghost use Rattle.record_lists.specs.Kinds.{span_tag};
ghost use Rattle.pens.specs.Stand.{before, after};
ghost use Rattle.pens.specs.Writes.{Part};

use pens::{Pen, Records, Refused, ink, take};
use per::width::bits_for;

// A number from lo to hi.
pub fn write_number(
    records: Records,
    out: &mut [u8],
    p: Pen,
    element: u64,
    tag: u64,
    lo: u64,
    hi: u64,
) -> Result<Pen, Refused>
    requires { span_tag tag ≡ false }
    ensures { (b : ℕ → ℕ) (y : ℕ) → Part (num tag lo hi) (element, y) b records.entry.words.now records.entry.len (before p) out.old (after result) out.new }
{
    let i = p.next;
    if i < records.len {
        let value = records.words[i * 5 + 2];
        let above = value.wrapping_sub(lo);
        let extent = hi.wrapping_sub(lo);
        if above <= extent {
            let q = take(records, p, tag, element, value, 0)?;
            return Ok(ink(out, q, bits_for(extent), above));
        }
    }
    Err(Refused)
}

// A name, by its place from 0 to hi.
pub fn write_name(
    records: Records,
    out: &mut [u8],
    p: Pen,
    element: u64,
    tag: u64,
    hi: u64,
) -> Result<Pen, Refused>
    requires { span_tag tag ≡ false }
    ensures { (b : ℕ → ℕ) (y : ℕ) → Part (name tag hi) (element, y) b records.entry.words.now records.entry.len (before p) out.old (after result) out.new }
{
    write_number(records, out, p, element, tag, 0, hi)
}

// A reason, in the bits of a name from 0 to 30: only three are listed.
pub fn write_reason(
    records: Records,
    out: &mut [u8],
    p: Pen,
    element: u64,
    tag: u64,
) -> Result<Pen, Refused>
    requires { span_tag tag ≡ false }
    ensures { (b : ℕ → ℕ) (y : ℕ) → Part (listed tag 30 (0 ∷ 1 ∷ 30 ∷ [])) (element, y) b records.entry.words.now records.entry.len (before p) out.old (after result) out.new }
{
    let i = p.next;
    if i < records.len {
        match records.words[i * 5 + 2] {
            0 | 1 | 30 => {
                return write_name(records, out, p, element, tag, 30);
            }
            _ => {}
        }
    }
    Err(Refused)
}
