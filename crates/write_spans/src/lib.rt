// Strings that lists tell by spans, written: their bits stand in other bytes, where the spans point. A span is a record of its tag, its element number, its first bit and its number of bits.
#![tactic(auto)]

ghost use Rattle.std.specs.Prelude.{◌≡◌, true, ℕ, ◌*◌, ◌^◌, ◌≤◌, ◌<◌, length};
ghost use Rattle.x691.specs.Bits.{bit_of};
ghost use Rattle.atn.specs.Format.{span, any_span};
ghost use Rattle.record_lists.specs.Items.{inside};
ghost use Rattle.record_lists.specs.Kinds.{span_tag};
ghost use Rattle.pens.specs.Rest.{rest};
ghost use Rattle.pens.specs.Stand.{before, after};
ghost use Rattle.pens.specs.Writes.{Part};

use pens::{Pen, Records, Refused, ink};
use per::width::bits_for;
use units::{put_whole, units_at};

pub mod inside; // inside.rt: whether spans lie inside the bytes that they point into
mod units; // units.rt: the units of a span, counted and put

// A list of records, and the bytes that its spans point into, past which none goes.
#[derive(Clone, Copy)]
pub struct Lent<'w, 's> {
    pub records: Records<'w>,
    pub src: &'s [u8],
    ghost short: { length src.now < 2 ^ 56 },
    ghost inside_src: { inside span_tag (length src.now * 8) (rest records.words.now records.len 0) ≡ true },
}

// A string of lo to hi units of w bits each: its size, then its bits.
pub fn write_span(
    lent: Lent,
    out: &mut [u8],
    p: Pen,
    element: u64,
    tag: u64,
    w: u64,
    lo: u64,
    hi: u64,
) -> Result<Pen, Refused>
    requires { (span_tag tag ≡ true) × (1 ≤ w) × (1 ≤ lo) × (lo ≤ hi) }
    ensures { (y : ℕ) → Part (span tag w lo hi) (element, y) (bit_of lent.entry.src.now) lent.entry.records.words.now lent.entry.records.len (before p) out.old (after result) out.new }
{
    let k = units_at(lent.records, p.next, tag, w);
    if k < lo {
        return Err(Refused);
    }
    if hi < k {
        return Err(Refused);
    }
    put_whole(lent, out, p, element, w, bits_for(hi - lo), k - lo)
}

// A string of any number of units of w bits each: a length determinant, then its bits. Where the next record tells no unit of such a string, the string is empty, and the record is not taken.
pub fn write_any_span(
    lent: Lent,
    out: &mut [u8],
    p: Pen,
    element: u64,
    tag: u64,
    w: u64,
) -> Result<Pen, Refused>
    requires { (span_tag tag ≡ true) × (1 ≤ w) }
    ensures { (y : ℕ) → Part (any_span tag w) (element, y) (bit_of lent.entry.src.now) lent.entry.records.words.now lent.entry.records.len (before p) out.old (after result) out.new }
{
    let k = units_at(lent.records, p.next, tag, w);
    if k == 0 {
        return Ok(ink(out, p, 8, 0));
    }
    if k < 128 {
        return put_whole(lent, out, p, element, w, 8, k);
    }
    if k < 16384 {
        return put_whole(lent, out, p, element, w, 16, 32768 + k);
    }
    Err(Refused)
}
