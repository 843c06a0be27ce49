// Reasons, which have an extension marker. An extended one is told as value 0 and second number 1, and what follows the bit is not read.
// The extension bit is no field's: a reason starts behind it, and an extended one has the place where the reading stood.
ghost use Rattle.std.specs.Prelude.{◌≡◌, ◌<◌, ◌^◌};
ghost use Rattle.atn.specs.Messages.{ext_reason};
ghost use Rattle.cursor.specs.Place.{Takes};
ghost use Rattle.field_ranges.specs.Ranges.{Listed};
ghost use Rattle.field_ranges.specs.Ends.{highest};
ghost use Rattle.told_fields.specs.Does.{Does};

use super::numbers::number;
use cursor::place::{bits, mark};
use field_ranges::table::Range;
use records::emit;
use runs::At;

// A reason of the range, which is told above the range too, with mark 1.
pub fn reason(words: &mut [u64], at: At, s: &[u8], element: u64, tag: u64, range: Range) -> At
    requires { (at.n < 2 ^ 31) × Listed range × (range.lo ≡ 0) }
    ensures { Does 1 element (Takes (ext_reason tag (highest range.row)) s.now) at result words.old words.new }
{
    let extension = bits(s, at.c, 1);
    let c = extension.c;
    if extension.v == 0 {
        let behind = At { n: at.n, c: c };
        return number(words, behind, s, element, tag, range);
    }
    let end = mark(c, 2);
    let n = emit(words, at.n, tag, element, 0, 1, end.at);
    At { n: n, c: end }
}
