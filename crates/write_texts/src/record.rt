// The characters of records, eight to a record.
ghost use Rattle.std.specs.Prelude.{◌≡◌, false, ℕ, ◌+◌, ◌*◌, ◌/◌, ◌^◌, ◌≤◌, ◌<◌, min, length};
ghost use Rattle.x691.specs.Encoding.{unit_bits};
ghost use Rattle.record_lists.specs.Kinds.{span_tag};
ghost use Rattle.pens.specs.Rest.{items};
ghost use Rattle.pens.specs.Stand.{before, after};
ghost use Rattle.pens.specs.Writes.{Writes};
ghost use Rattle.write_texts.specs.Letters.{in_record, in_records};

use super::word::write_word;
use pens::{Pen, Records, Refused, take};

// The next k characters of a text of so many.
fn write_record(
    records: Records,
    out: &mut [u8],
    p: Pen,
    element: u64,
    tag: u64,
    n: u64,
    c: u64,
    size: u64,
    k: u64,
) -> Result<Pen, Refused>
    requires { (span_tag tag ≡ false) × (1 ≤ n) × (k ≤ 8) }
    ensures { (b : ℕ → ℕ) → Writes (λ us. unit_bits n us) (λ R. in_record tag element n c size k R) (λ i. items b records.entry.words.now records.entry.len i) records.entry.len (before p) out.old (after result) out.new }
{
    let i = p.next;
    if records.len <= i {
        return Err(Refused);
    }
    let w = records.words[i * 5 + 2];
    let q = take(records, p, tag, element, w, size)?;
    write_word(out, q, w, k, n, c)
}

// How many of so many characters a record has.
fn in_record(left: u64) -> u64
    ensures { result ≡ min 8 left }
{
    left.min(8)
}

// All characters of a text of so many.
pub fn write_records(
    records: Records,
    out: &mut [u8],
    p: Pen,
    element: u64,
    tag: u64,
    n: u64,
    c: u64,
    size: u64,
) -> Result<Pen, Refused>
    requires { (span_tag tag ≡ false) × (1 ≤ n) }
    ensures { (b : ℕ → ℕ) → Writes (λ us. unit_bits n us) (λ R. in_records tag element n c size ((size + 7) / 8) size R) (λ i. items b records.entry.words.now records.entry.len i) records.entry.len (before p) out.old (after result) out.new }
{
    let mut q = p;
    for i in 0..size.div_ceil(8) {
        let left = size - i * 8;
        let k = in_record(left);
        q = write_record(records, out, q, element, tag, n, c, size, k)?;
    }
    Ok(q)
}
