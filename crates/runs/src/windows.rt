// The end of an inner string, seen from the window around it.
ghost use Rattle.std.specs.Prelude.{◌≡◌, eqb};
ghost use Rattle.atn.specs.Reading.{unless};
ghost use Rattle.runs.specs.Windows.{closed, closed_why, closed_marks};

use cursor::place::Cursor;

// d stands behind the string, r where the reading inside it ended. What was given up or passed over inside is accepted; running past the string's end is badly formed.
pub fn close_window(d: Cursor, r: Cursor) -> Cursor
    ensures { result ≡ closed d r }
{
    let at = d.at;
    let end = d.end;
    let why = closed_why(r.why);
    let marks = closed_marks(r);
    Cursor {
        at: at,
        end: end,
        why: why,
        marks: marks,
    }
}

fn closed_why(why: u64) -> u64
    ensures { result ≡ closed_why why }
{
    if why % 16 == 4 {
        return 5;
    }
    if why == 5 {
        return 5;
    }
    if why == 6 {
        return 6;
    }
    0
}

// Mark 7 where the reading carried on past the end; mark 6 for bits left, where they count.
fn closed_marks(r: Cursor) -> u64
    ensures { result ≡ closed_marks r }
{
    let marks = r.marks;
    let left = left_marks(r.at, r.end);
    if r.why == 7 {
        return marks | 64 | left;
    }
    if r.why == 0 {
        return marks | left;
    }
    if r.why == 9 {
        return marks | left;
    }
    marks
}

fn left_marks(at: usize, end: usize) -> u64
    ensures { result ≡ unless (eqb at end) 6 }
{
    if at == end {
        return 0;
    }
    32
}
