// The index of an alternative.
ghost use Rattle.std.specs.Prelude.{◌≡◌, false, true, ℕ, ◌*◌, ◌^◌, ◌≤◌, ◌<◌, length};
ghost use Rattle.record_lists.specs.Kinds.{span_tag};
ghost use Rattle.pens.specs.Stand.{before};
ghost use Rattle.write_leaves.specs.Index.{Indexes, index_after};

use pens::{Pen, Records, Refused, Wrote, ink, is_record};
use per::width::bits_for;

// The record of an index below n, as its bits. Another index has no alternative.
pub fn write_index(
    records: Records,
    out: &mut [u8],
    p: Pen,
    element: u64,
    tag: u64,
    n: u64,
) -> Result<Wrote<u64>, Refused>
    requires { (span_tag tag ≡ false) × (1 ≤ n) }
    ensures { (b : ℕ → ℕ) → Indexes tag element n b records.entry.words.now records.entry.len (before p) out.old (index_after result) out.new }
{
    let i = p.next;
    if records.len <= i {
        return Err(Refused);
    }
    let v = records.words[i * 5 + 2];
    if n <= v {
        return Err(Refused);
    }
    if is_record(records, i, tag, element, v, 0) {
        let q = ink(out, p, bits_for(n - 1), v);
        let pen = Pen {
            next: i + 1,
            at: q.at,
        };
        return Ok(Wrote { value: v, pen });
    }
    Err(Refused)
}
