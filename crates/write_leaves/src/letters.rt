// A text by its characters: of one alphabet, or those of a satellite channel, which stand there twice.
ghost use Rattle.std.specs.Prelude.{◌≡◌, true, false, ℕ, ◌*◌, ◌^◌, ◌≤◌, ◌<◌, length};
ghost use Rattle.atn.specs.Format.{text};
ghost use Rattle.record_lists.specs.Kinds.{span_tag};
ghost use Rattle.node_tables.specs.Nodes.{letters_by};
ghost use Rattle.node_tables.specs.Sure.{sure_letters};
ghost use Rattle.pens.specs.Stand.{before, after};
ghost use Rattle.pens.specs.Writes.{Part};

use pens::{Pen, Records, Refused};
use write_texts::channel::write_channel;
use write_texts::write_text;

// lo to hi of n characters: c is the code of the first, or from 256 on the tag of the channel's second text.
pub fn write_letters(
    records: Records,
    out: &mut [u8],
    p: Pen,
    element: u64,
    tag: u64,
    n: u64,
    c: u64,
    lo: u64,
    hi: u64,
) -> Result<Pen, Refused>
    requires { (span_tag tag ≡ false) × (sure_letters n c lo hi ≡ true) }
    ensures { (b : ℕ → ℕ) (y : ℕ) → Part (text tag n (letters_by c) lo hi) (element, y) b records.entry.words.now records.entry.len (before p) out.old (after result) out.new }
{
    if c < 256 {
        return write_text(records, out, p, element, tag, n, c, lo, hi);
    }
    write_channel(records, out, Ok(p), element, tag, c - 256)
}
