// Texts written: the size, and then each character by its place in its alphabet. A list of records that shows no such text is refused.
#![tactic(auto)]

ghost use Rattle.std.specs.Prelude.{◌≡◌, false, ℕ, ◌+◌, ◌*◌, ◌^◌, ◌≤◌, ◌<◌, length};
ghost use Rattle.atn.specs.Format.{text, first};
ghost use Rattle.record_lists.specs.Kinds.{span_tag};
ghost use Rattle.pens.specs.Stand.{before, after};
ghost use Rattle.pens.specs.Writes.{Part};

use pens::{Pen, Records, Refused, ink};
use per::width::bits_for;

pub mod channel; // channel.rt: a satellite channel, whose characters stand there twice
mod word; // word.rt: the characters of one word
mod record; // record.rt: the characters of records, eight to a record

// A text of lo to hi of the n characters from code c on, with this tag, in this element.
pub fn write_text(
    records: Records,
    out: &mut [u8],
    p: Pen,
    element: u64,
    tag: u64,
    n: u64,
    c: u64,
    lo: u64,
    hi: u64,
) -> Result<Pen, Refused>
    requires { (span_tag tag ≡ false) × (1 ≤ lo) × (1 ≤ n) × (c + n ≤ 256) × (lo ≤ hi) }
    ensures { (b : ℕ → ℕ) (y : ℕ) → Part (text tag n (first c) lo hi) (element, y) b records.entry.words.now records.entry.len (before p) out.old (after result) out.new }
{
    let i = p.next;
    if records.len <= i {
        return Err(Refused);
    }
    let size = records.words[i * 5 + 3];
    if size < lo {
        return Err(Refused);
    }
    if hi < size {
        return Err(Refused);
    }
    let q = ink(out, p, bits_for(hi - lo), size - lo);
    record::write_records(records, out, q, element, tag, n, c, size)
}
