// One small reader that holds the frame and its bit place, for callers: thin functions above the by-value cursor. `start` and `next`, on a slice and a cursor, do the work. Whoever wants no struct calls `bits_at`.
#![tactic(auto)]

ghost use Rattle.std.specs.Prelude.{◌≡◌, ◌≤◌, length};
ghost use Rattle.reader.specs.Reads.{opened, Took};

use answers::LONGEST_FRAME;
use cursor::place::{Cursor, Got, bits, stop};
use per::room::holds;
use per::units::Octets;

#[derive(Clone, Copy)]
pub struct Reader<'a> {
    pub frame: &'a [u8],
    pub c: Cursor,
}

// A place in a frame, whose window is the whole frame. A frame over 65,536 bytes is not read: refusal 1.
pub fn start(s: &[u8], at: usize) -> Cursor
    ensures { result ≡ opened s.now at }
{
    if s.len() <= LONGEST_FRAME {
        return Cursor {
            at: at,
            end: Octets(s.len()).bits().0,
            why: 0,
            marks: 0,
        };
    }
    Cursor {
        at: at,
        end: 0,
        why: 1,
        marks: 0,
    }
}

// The next n bits as a number, and the cursor behind them. Where they are not there the number is 0.
pub fn next(s: &[u8], c: Cursor, n: usize) -> Got<u64>
    requires { n ≤ 64 }
    ensures { Took s.now c n result }
{
    let at = c.at;
    let end = c.end;
    let out = stop(c, 4, 0);
    if at <= end {
        if holds(s, end) {
            let g = bits(s, c, n);
            let d = g.c;
            if d.why == 0 {
                return g;
            }
            return Got { v: 0, c: d };
        }
    }
    Got { v: 0, c: out }
}

// A reader of a frame, at a place of it.
pub fn open<'a>(frame: &'a [u8], at: usize) -> Reader<'a>
    ensures { (result.frame ≡ frame.entry) × (result.c ≡ opened frame.now at) }
{
    Reader {
        frame: frame,
        c: start(frame, at),
    }
}

impl<'a> Reader<'a> {
    // Where it stands, why it stopped and its marks.
    pub fn cursor(self) -> Cursor
        ensures { result ≡ self.entry.c }
    {
        self.c
    }

    // The next n bits as a number. The reader moves behind them.
    pub fn take(&mut self, n: usize) -> u64
        requires { n ≤ 64 }
        ensures { (self.new.frame ≡ self.old.frame) × Took self.old.frame.now self.old.c n (record { v = result; c = self.new.c }) }
    {
        let g = next(self.frame, self.c, n);
        self.c = g.c;
        g.v
    }
}

// n bits of a frame from a place on: the number, and where the reading stands behind them. A plain slice and numbers, for every other caller.
pub fn bits_at(frame: &[u8], at: usize, n: usize) -> Got<u64>
    requires { n ≤ 64 }
    ensures { Took frame.now (opened frame.now at) n result }
{
    let mut r = open(frame, at);
    let v = r.take(n);
    let c = r.cursor();
    Got { v: v, c: c }
}
