// Reasons behind an extension bit. A set one is told as extended, with mark 2.
ghost use Rattle.std.specs.Prelude.{◌≡◌, ◌<◌, ◌&&◌, [], ◌∷◌, nat_le};
ghost use Rattle.x691.specs.Range.{member};
ghost use Rattle.atn.specs.Reading.{unless, over};
ghost use Rattle.atn.specs.Messages.{ext_reason};
ghost use Rattle.cursor.specs.Place.{marked};
ghost use Rattle.acse_reasons.specs.Notes.{note_at, note_recs, listed_reason};
ghost use Rattle.acse_reasons.specs.SoFar.{Keeps};

use super::few::few;
use super::notes::{Note, note_at};
use cursor::place::{Cursor, Got, mark};
use field_ranges::table::RELEASE_REASON;
use per::width::bits_for;

fn extended(c: Cursor, tag: u64) -> Got<Note>
    ensures { result ≡ note_at (marked c 2) tag 0 1 c.at }
{
    let d = mark(c, 2);
    note_at(d, tag, 0, 1, c.at)
}

// The mark of a number above the highest.
fn above(v: u64, highest: u64) -> u64
    ensures { result ≡ over highest v }
{
    if v <= highest {
        return 0;
    }
    1
}

// A number from 0 on. The highest is handed over and no range: so this is compiled into who calls it.
pub fn reason(s: &[u8], c: Cursor, highest: u64, tag: u64) -> Got<Note>
    requires { highest < 256 }
    ensures { Keeps (ext_reason tag highest) s.now c result.c (note_recs result.v) }
{
    let extension = few(s, c, 1);
    if extension.v != 0 {
        return extended(extension.c, tag);
    }
    let number = few(s, extension.c, bits_for(highest));
    let d = mark(number.c, above(number.v, highest));
    note_at(d, tag, number.v, 0, extension.c.at)
}

// The mark of a release reason: 0, 1 and 30 are listed.
fn unlisted(v: u64) -> u64
    ensures { result ≡ unless (nat_le v 30 && member v (0 ∷ 1 ∷ 30 ∷ [])) 1 }
{
    if v < 2 {
        return 0;
    }
    if v == 30 {
        return 0;
    }
    1
}

// A release reason: some numbers of a range.
pub fn release_reason(s: &[u8], c: Cursor, tag: u64) -> Got<Note>
    ensures { Keeps (listed_reason tag) s.now c result.c (note_recs result.v) }
{
    let extension = few(s, c, 1);
    if extension.v != 0 {
        return extended(extension.c, tag);
    }
    let index = few(s, extension.c, RELEASE_REASON.width());
    let d = mark(index.c, unlisted(index.v));
    note_at(d, tag, index.v, 0, extension.c.at)
}
