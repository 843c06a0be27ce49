// Numbers of a range, and refusals.
ghost use Rattle.std.specs.Prelude.{◌≡◌, ◌<◌, ◌^◌};
ghost use Rattle.atn.specs.Format.{num};
ghost use Rattle.cursor.specs.Place.{stopped, Takes};
ghost use Rattle.field_ranges.specs.Ranges.{Listed};
ghost use Rattle.field_ranges.specs.Ends.{lowest, highest};
ghost use Rattle.told_fields.specs.Does.{Does};

use cursor::place::stop;
use field_ranges::table::Range;
use ranged_numbers::ranged;
use records::emit;
use runs::At;

// The reading stops here: document 01's number, and the marks.
pub fn refuse(at: At, why: u64, marks: u64) -> At
    ensures { result ≡ record { n = at.n; c = stopped at.c why marks } }
{
    let d = stop(at.c, why, marks);
    At { n: at.n, c: d }
}

pub fn number(words: &mut [u64], at: At, s: &[u8], element: u64, tag: u64, range: Range) -> At
    requires { (at.n < 2 ^ 31) × Listed range }
    ensures { Does 1 element (Takes (num tag (lowest range.row) (highest range.row)) s.now) at result words.old words.new }
{
    let g = ranged(s, at.c, range);
    let c = g.c;
    let n = emit(words, at.n, tag, element, g.v, 0, at.c.at);
    At { n: n, c: c }
}
