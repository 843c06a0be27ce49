// What is read, printed.
ghost use Rattle.std.specs.Prelude.{◌≤◌};

use answers::LONGEST_FRAME;
use cursor::place::{Cursor, Got};
use length_determinants::{length, small};
use reader::{bits_at, next};

// A number of n bits, the first of the frame.
pub fn first_number(label: &[u8], frame: &[u8], n: usize) -> Cursor
    requires { n ≤ 64 }
{
    shown(label, bits_at(frame, 0, n))
}

// A number of n bits.
pub fn number(label: &[u8], frame: &[u8], c: Cursor, n: usize) -> Cursor
    requires { n ≤ 64 }
{
    shown(label, next(frame, c, n))
}

// A normally small number.
pub fn small_number(label: &[u8], frame: &[u8], c: Cursor) -> Cursor {
    if LONGEST_FRAME < frame.len() {
        return c;
    }
    shown(label, small(frame, c))
}

fn shown(label: &[u8], g: Got<u64>) -> Cursor {
    let d = g.c;
    told(label, g.v, d.why);
    d
}

// A length.
pub fn size(label: &[u8], frame: &[u8], c: Cursor) -> Cursor {
    if LONGEST_FRAME < frame.len() {
        return c;
    }
    let l = length(frame, c);
    let d = l.c;
    told(label, l.v as u64, d.why);
    d
}

// A string of any size: a length, and seven bits a character.
pub fn string(label: &[u8], frame: &[u8], c: Cursor) -> Cursor {
    if LONGEST_FRAME < frame.len() {
        return c;
    }
    let l = length(frame, c);
    let d = l.c;
    io::write_all(1, label);
    characters(frame, d, l.v)
}

fn characters(frame: &[u8], c: Cursor, n: usize) -> Cursor {
    let mut d = c;
    for _ in 0..n {
        let g = next(frame, d, 7);
        d = g.c;
        if d.why == 0 {
            letter(g.v);
        }
    }
    d
}

fn letter(v: u64) {
    io::write_all(1, &[octet(v)]);
}

fn octet(v: u64) -> u8 {
    (v % 256) as u8
}

// A number, or - where the reading has stopped.
fn told(label: &[u8], v: u64, why: u64) {
    io::write_all(1, label);
    if why == 0 {
        io::print_decimal(1, v);
    } else {
        io::write_all(1, b"-");
    }
}

// How it ended: why the reading stopped, the mark set and the reach.
pub fn ended(c: Cursor) {
    told(b"\nwhy ", c.why % 16, 0);
    told(b" marks ", c.marks, 0);
    told(b" reach ", c.at as u64, 0);
    io::write_all(1, b"\n\n");
}
