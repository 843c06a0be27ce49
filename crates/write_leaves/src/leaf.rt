// A node with no other below it: a number, a name, a text, a span, or nothing.
ghost use Rattle.std.specs.Prelude.{◌≡◌, true, List, ℕ, ◌<◌};
ghost use Rattle.x691.specs.Bits.{bit_of};
ghost use Rattle.atn.specs.Format.{Fmt};
ghost use Rattle.node_tables.specs.Nodes.{format_of};
ghost use Rattle.pens.specs.Stand.{before, after};
ghost use Rattle.pens.specs.Writes.{Part};
ghost use Rattle.write_leaves.specs.Lent.{SureLeaf};

use super::letters::write_letters;
use pens::{Pen, Refused};
use write_numbers::{write_name, write_number, write_reason};
use write_spans::{Lent, write_any_span, write_span};

pub fn write_leaf(
    lent: Lent,
    out: &mut [u8],
    kind: u64,
    a: u64,
    b: u64,
    c: u64,
    d: u64,
    e: u64,
    x: u64,
    p: Pen,
) -> Result<Pen, Refused>
    requires { (kind < 8) × SureLeaf kind a b c d e }
    ensures { (F : ℕ → Fmt) (N down up : List ℕ) (y : ℕ) → Part (format_of F N down up kind a b c d e) (x, y) (bit_of lent.entry.src.now) lent.entry.records.words.now lent.entry.records.len (before p) out.old (after result) out.new }
{
    if kind == 1 {
        return write_number(lent.records, out, p, x, a, b, c);
    }
    if kind == 2 {
        return write_name(lent.records, out, p, x, a, b);
    }
    if kind == 3 {
        return write_reason(lent.records, out, p, x, a);
    }
    if kind == 4 {
        return write_letters(lent.records, out, p, x, a, b, c, d, e);
    }
    if kind == 5 {
        return write_span(lent, out, p, x, a, b, c, d);
    }
    if kind == 6 {
        return write_any_span(lent, out, p, x, a, b);
    }
    if kind == 7 {
        return Ok(p);
    }
    Err(Refused)
}
