// Parts that hold no others.
ghost use Rattle.std.specs.Prelude.{◌≡◌, true, [], ◌∷◌, ◌≤◌};
ghost use Rattle.x691.specs.Bits.{bit_of};
ghost use Rattle.atn.specs.Reading.{rec, ok, mark, read};
ghost use Rattle.schema_nodes.specs.Names.{leaf_fits};
ghost use Rattle.schema_leaves.specs.Came.{Open, Came};
ghost use Rattle.schema_parts.specs.Owed.{leaf_format, Refuses};

use capped_records::emit;
use cursor::place::{mark, stop};
use schema_leaves::Step;
use schema_leaves::numbers::{take_name, take_number};
use schema_leaves::strings::{take_bits, take_text};
use schema_nodes::node::Leaf;

// A number, a name, a text or bits.
pub fn read_leaf(s: &[u8], words: &mut [u64], leaf: Leaf, at: Step) -> Step
    requires { Open s.now at × (leaf_fits leaf ≡ true) }
    ensures { Came (read (leaf_format leaf) (0, 0) (bit_of s.now) at.c.end at.c.at) at words.old result words.new }
{
    match leaf {
        Leaf::Number {
            tag,
            lowest,
            highest,
        } => take_number(s, words, at, tag, lowest, highest),
        Leaf::Name { tag, highest } => take_name(s, words, at, tag, highest),
        Leaf::Text { tag, fewest, most } => take_text(s, words, at, tag, fewest, most),
        Leaf::Bits { tag, count } => take_bits(s, words, at, tag, count),
    }
}

// The reading stops here: what has no reader.
pub fn refuse(at: Step, marks: u64) -> Step
    requires { at.c.why ≡ 0 }
    ensures { Refuses marks at result }
{
    let c = stop(at.c, 5, marks);
    Step { c: c, n: 0 }
}

// A part that is known to be present and not read: a record and mark 4.
pub fn note_unread(words: &mut [u64], at: Step, tag: u64) -> Step
    requires { (at.c.why ≡ 0) × (at.c.at ≤ at.c.end) }
    ensures { Came (ok at.c.at (rec tag 0 1 0 at.c.at ∷ []) (mark 4)) at words.old result words.new }
{
    let c = mark(at.c, 8);
    let n = emit(words, at.n, tag, 1, 0, at.c.at);
    Step { c: c, n: n }
}
