// A satellite channel: twelve characters, told as the source has them and as X.680 has them. The list is refused where the two do not say the same.
ghost use Rattle.std.specs.Prelude.{◌≡◌, false, ℕ, ◌+◌, ◌*◌, ◌^◌, ◌≤◌, ◌<◌, length, get_or};
ghost use Rattle.atn.specs.Format.{text, numeric};
ghost use Rattle.record_lists.specs.Kinds.{span_tag};
ghost use Rattle.pens.specs.Stand.{after};
ghost use Rattle.pens.specs.Writes.{Part};

use super::write_text;
use numeric_strings::spaced_eight;
use pens::{Pen, Records, Refused, take};

// p is what the step before gave: behind a refusal this refuses too.
pub fn write_channel(
    records: Records,
    out: &mut [u8],
    p: Result<Pen, Refused>,
    element: u64,
    tag: u64,
    x691: u64,
) -> Result<Pen, Refused>
    requires { (span_tag tag ≡ false) × (span_tag x691 ≡ false) }
    ensures { (b : ℕ → ℕ) (y : ℕ) → Part (text tag 11 (numeric x691) 12 12) (element, y) b records.entry.words.now records.entry.len (after p) out.old (after result) out.new }
{
    let p = p?;
    let i = p.next;
    let front = spaced_eight(value_behind(records, i, 0));
    let back = spaced_eight(value_behind(records, i, 1));
    let digits = write_text(records, out, p, element, tag, 11, 48, 12, 12)?;
    let half = take(records, digits, x691, element, front, 12)?;
    take(records, half, x691, element, back, 12)
}

// The value of the record k behind record i. Where there is none it is 0, which nobody takes.
fn value_behind(records: Records, i: usize, k: usize) -> u64
    requires { k ≤ 1 }
    ensures { i + k < records.entry.len → result ≡ get_or records.entry.words.now ((i + k) * 5 + 2) 0 }
{
    if i < records.len {
        let j = i + k;
        if j < records.len {
            return records.words[j * 5 + 2];
        }
    }
    0
}
