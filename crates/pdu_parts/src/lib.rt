// Parts of the message choice that have no message in them: reasons, and the alternative that is known from its index alone.
#![tactic(auto)]

ghost use Rattle.std.specs.Prelude.{◌≡◌, ◌≤◌, ◌<◌, ◌^◌, length};
ghost use Rattle.field_ranges.specs.Ranges.{Listed};
ghost use Rattle.pdu_parts.specs.Parts.{reason_at, extension_at};
ghost use Rattle.runs.specs.Runs.{Runs};

use cpdlc_tags::{EXTENSION_INDEX, PDU};
use cursor::place::{Cursor, mark};
use field_ranges::table::Range;
use length_determinants::small;
use records::emit;
use runs::At;
use told_fields::reasons::reason;

// The reason of an abort or of a forward response.
pub fn reason_part(s: &[u8], words: &mut [u64], n: usize, c: Cursor, range: Range, tag: u64) -> At
    requires { Listed range × (range.lo ≡ 0) × (n < 2 ^ 31) }
    ensures { Runs 1 (reason_at range.row tag s.now) s.now c n words.old words.new result }
{
    let at = At { n: n, c: c };
    if c.why != 0 {
        return at;
    }
    reason(words, at, s, 0, tag, range)
}

// An alternative that the extension bit names: its index is told, and nothing else is read.
pub fn read_extension(s: &[u8], words: &mut [u64], n: usize, c: Cursor) -> At
    requires { (length s.now ≤ 65536) × (n < 2 ^ 31) }
    ensures { Runs 2 (extension_at s.now) s.now c n words.old words.new result }
{
    if c.why != 0 {
        return At { n: n, c: c };
    }
    let m = emit(words, n, PDU, 0, 0, 1, c.at);
    let d = mark(c, 2);
    let g = small(s, d);
    let e = g.c;
    if e.why != 0 {
        return At { n: m, c: e };
    }
    let k = emit(words, m, EXTENSION_INDEX, 0, g.v, 0, d.at);
    At { n: k, c: e }
}
