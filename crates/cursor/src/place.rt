// A cursor by value: the place of the next bit, the end of the window, why the reading stopped (0 while it goes on, else document 01's number, and 16 times the bits lacked where it ran out) and its marks. A failure stays: behind it every read is a no-op.
ghost use Rattle.std.specs.Prelude.{◌≡◌, ◌+◌, ◌^◌, ◌<◌, ◌≤◌};
ghost use Rattle.atn.specs.Format.{out};
ghost use Rattle.cursor.specs.Place.{number, Pulls, Opens, stopped, marked};

use per::number::uint;

#[derive(Clone, Copy)]
pub struct Cursor {
    pub at: usize,
    pub end: usize,
    pub why: u64,
    pub marks: u64,
}

// What was read, and the cursor behind it.
#[derive(Clone, Copy)]
pub struct Got<T> {
    pub v: T,
    pub c: Cursor,
}

impl<T> Got<T> {
    // What was read, as another value: the cursor behind it stays.
    pub fn map<U, F: FnOnce(T) -> U>(self, f: F) -> Got<U>
        requires { F.pre f self.v }
        ensures value { F.post f self.v result.v }
        ensures place { result.c ≡ self.c }
    {
        Got {
            v: f(self.v),
            c: self.c,
        }
    }
}

// Why a reading stopped that lacked so many bits.
pub fn ran_out(lacked: usize) -> u64
    requires { lacked < 2 ^ 56 }
    ensures { result ≡ number (out lacked) }
{
    4 + 16 * lacked as u64
}

// The next n bits as a number. Where the window is too short for them it says so and does not move. That the cursor is in its window, and that in the frame, is not tested: what it gives elsewhere nobody may use.
pub fn bits(s: &[u8], c: Cursor, n: usize) -> Got<u64>
    requires { n ≤ 64 }
    ensures { Pulls s.now c n result }
{
    let at = c.at;
    let end = c.end;
    let marks = c.marks;
    if c.why != 0 {
        return Got { v: 0, c: c };
    }
    let left = std::num::wrapping_sub_usize(end, at);
    if n <= left {
        let behind = std::num::wrapping_add_usize(at, n);
        let v = uint(s, at, n);
        return Got {
            v: v,
            c: Cursor {
                at: behind,
                end: end,
                why: 0,
                marks: marks,
            },
        };
    }
    let why = ran_out(n - left);
    Got {
        v: 0,
        c: Cursor {
            at: at,
            end: end,
            why: why,
            marks: marks,
        },
    }
}

// The next n presence bits as a number. They are taken one after another: where the window is too short for all, what is there of them is taken, and the next lacks its one bit.
pub fn presence(s: &[u8], c: Cursor, n: usize) -> Got<u64>
    requires { n ≤ 64 }
    ensures { Opens s.now c n result }
{
    let end = c.end;
    let marks = c.marks;
    let g = bits(s, c, n);
    if c.why != 0 {
        return g;
    }
    let d = g.c;
    if d.why == 0 {
        return g;
    }
    Got {
        v: 0,
        c: Cursor {
            at: end,
            end: end,
            why: 20,
            marks: marks,
        },
    }
}

// The reading stops here, unless it has stopped.
pub fn stop(c: Cursor, why: u64, marks: u64) -> Cursor
    ensures { result ≡ stopped c why marks }
{
    let at = c.at;
    let end = c.end;
    if c.why != 0 {
        return c;
    }
    Cursor {
        at: at,
        end: end,
        why: why,
        marks: c.marks | marks,
    }
}

// Marks, unless the reading has stopped.
pub fn mark(c: Cursor, marks: u64) -> Cursor
    ensures { result ≡ marked c marks }
{
    let at = c.at;
    let end = c.end;
    if c.why != 0 {
        return c;
    }
    Cursor {
        at: at,
        end: end,
        why: 0,
        marks: c.marks | marks,
    }
}
