// Ranged numbers, and names by their places.
ghost use Rattle.x691.specs.Bits.{bit_of};
ghost use Rattle.atn.specs.Format.{num, name};
ghost use Rattle.atn.specs.Reading.{read};
ghost use Rattle.schema_leaves.specs.Came.{Open, Came};

use super::Step;
use capped_records::emit;
use cursor::place::{bits, mark, stop};
use per::width::bits_for;

// A number; an end below zero is 2^64 less its magnitude. Above the highest it has mark 1.
pub fn take_number(s: &[u8], words: &mut [u64], at: Step, tag: u64, lo: u64, hi: u64) -> Step
    requires { Open s.now at }
    ensures { Came (read (num tag lo hi) (0, 0) (bit_of s.now) at.c.end at.c.at) at words.old result words.new }
{
    let n = at.n;
    let from = at.c.at;
    let d = std::num::wrapping_sub_u64(hi, lo);
    let g = bits(s, at.c, bits_for(d));
    let c = g.c;
    if c.why != 0 {
        return Step {
            c: c,
            n: (c.why / 16) as usize,
        };
    }
    let m = emit(words, n, tag, std::num::wrapping_add_u64(lo, g.v), 0, from);
    if d < g.v {
        let e = mark(c, 1);
        return Step { c: e, n: m };
    }
    Step { c: c, n: m }
}

// A name by its place. Above the highest it is badly formed, with mark 1.
pub fn take_name(s: &[u8], words: &mut [u64], at: Step, tag: u64, hi: u64) -> Step
    requires { Open s.now at }
    ensures { Came (read (name tag hi) (0, 0) (bit_of s.now) at.c.end at.c.at) at words.old result words.new }
{
    let n = at.n;
    let from = at.c.at;
    let g = bits(s, at.c, bits_for(hi));
    let c = g.c;
    if c.why != 0 {
        return Step {
            c: c,
            n: (c.why / 16) as usize,
        };
    }
    if hi < g.v {
        let e = stop(c, 5, 1);
        return Step { c: e, n: 0 };
    }
    let m = emit(words, n, tag, g.v, 0, from);
    Step { c: c, n: m }
}
