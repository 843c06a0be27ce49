// Records by value.
ghost use Rattle.std.specs.Prelude.{◌≡◌};
ghost use Rattle.acse_reasons.specs.Notes.{note_at};

use cursor::place::{Cursor, Got};

// A record outside elements, by its tag, value, second number and place, or none: what stands behind the frame's end is not told.
#[derive(Clone, Copy)]
pub enum Note {
    Untold,
    Told(u64, u64, u64, usize),
}

// What was read up to c and starts at `at`, unless the reading stopped there.
pub fn note_at(c: Cursor, tag: u64, value: u64, second: u64, at: usize) -> Got<Note>
    ensures { result ≡ note_at c tag value second at }
{
    if c.why != 0 {
        return Got {
            v: Note::Untold,
            c: c,
        };
    }
    Got {
        v: Note::Told(tag, value, second, at),
        c: c,
    }
}
