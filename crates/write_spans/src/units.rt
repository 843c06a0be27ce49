// The units of a span, counted and put.
ghost use Rattle.std.specs.Prelude.{◌≡◌, true, ℕ, ◌+◌, ◌*◌, ◌/◌, ◌^◌, ◌≤◌, ◌<◌, length, get_or};
ghost use Rattle.x691.specs.Bits.{bit_of};
ghost use Rattle.record_lists.specs.Kinds.{span_tag};
ghost use Rattle.record_lists.specs.Parse.{bits_at};
ghost use Rattle.pens.specs.Rest.{items};
ghost use Rattle.pens.specs.Stand.{before, after};
ghost use Rattle.write_spans.specs.Spans.{whole, InksStretch, Sends};

use super::Lent;
use bit_writer::span::put_span;
use pens::{LIMIT, Pen, Records, Refused, ink};

// How many units of w bits the span in record i has: none where the record's tag is another.
pub fn units_at(records: Records, i: usize, tag: u64, w: u64) -> u64
    requires { (span_tag tag ≡ true) × (1 ≤ w) }
    ensures { ((b : ℕ → ℕ) → result ≡ length (bits_at tag (items b records.entry.words.now records.entry.len i)) / w) × (1 ≤ result → (i < records.entry.len) × (get_or records.entry.words.now (i * 5) 0 ≡ tag)) }
{
    if i < records.len {
        let k = i * 5;
        let words = records.words;
        if words[k] == tag {
            return words[k + 3] / w;
        }
    }
    0
}

// Whether record i has this element number, and whole units of w bits.
fn is_whole(records: Records, i: usize, element: u64, w: u64) -> bool
    requires { (i < records.len) × (1 ≤ w) }
    ensures { result ≡ whole records.entry.words.now i element w }
{
    let k = i * 5;
    let words = records.words;
    if words[k + 1] == element {
        return words[k + 3] % w == 0;
    }
    false
}

// The n bits of src from `from` on are put.
fn ink_span(src: &[u8], out: &mut [u8], p: Pen, from: usize, n: usize) -> Pen
    requires { (from + n ≤ length src.now * 8) × (length src.now < 2 ^ 56) }
    ensures { InksStretch (bit_of src.now) (before p) out.old from n (before result) out.new }
{
    let at = p.at;
    if LIMIT < at {
        return p;
    }
    put_span(out, at, src, from, n);
    Pen {
        next: p.next,
        at: at + n,
    }
}

// The span in the next record is put behind n bits of v, and taken. It is refused where its element number is another, or its last unit is not whole.
pub fn put_whole(
    lent: Lent,
    out: &mut [u8],
    p: Pen,
    element: u64,
    w: u64,
    n: usize,
    v: u64,
) -> Result<Pen, Refused>
    requires { (p.next < lent.records.len) × (get_or lent.records.words.now (p.next * 5 + 2) 0 + get_or lent.records.words.now (p.next * 5 + 3) 0 ≤ length lent.src.now * 8) × (1 ≤ w) × (n ≤ 64) × (v < 2 ^ n) }
    ensures { Sends (bit_of lent.entry.src.now) lent.entry.records.words.now element w n v (before p) out.old (after result) out.new }
{
    let i = p.next;
    if is_whole(lent.records, i, element, w) {
        let k = i * 5;
        let words = lent.records.words;
        let from = words[k + 2] as usize;
        let size = words[k + 3] as usize;
        let sized = ink(out, p, n, v);
        let behind = ink_span(lent.src, out, sized, from, size);
        let next = i + 1;
        let at = behind.at;
        return Ok(Pen { next, at });
    }
    Err(Refused)
}
