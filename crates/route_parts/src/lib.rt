// The optional parts of a clearance, by their presence bits and first tags: read as values, and told while the reading goes on. They stand outside the elements.
#![tactic(auto)]

ghost use Rattle.std.specs.Prelude.{◌+◌, ◌<◌, ◌^◌};
ghost use Rattle.atn.specs.Messages.{ia5 as airport, runway, procedure};
ghost use Rattle.optional_parts.specs.Parts.{Optional};

use character_strings::ia5;
use codes_runways::read_runway;
use cursor::place::Cursor;
use field_ranges::table::AIRPORT_SIZE;
use named_places::read_procedure;
use runs::At;
use tell::tell_text;
use tell_named_places::tell_procedure;
use tell_values::tell_runway;

pub fn airport_part(s: &[u8], words: &mut [u64], n: usize, c: Cursor, has: u64, tag: u64) -> At
    requires { n < 2 ^ 31 }
    ensures { Optional 64 has (airport tag 4 4) s.now c n words.old words.new result }
{
    if has == 0 {
        return At { n: n, c: c };
    }
    let a = ia5(s, c, AIRPORT_SIZE);
    let x = a.v;
    let d = a.c;
    if d.why != 0 {
        return At { n: n, c: d };
    }
    let m = tell_text(words, n, tag, 0, s, x);
    At { n: m, c: d }
}

pub fn runway_part(s: &[u8], words: &mut [u64], n: usize, c: Cursor, has: u64, tag: u64) -> At
    requires { (n < 2 ^ 31) × (tag < 2 ^ 16) }
    ensures { Optional 2 has (runway tag (tag + 1)) s.now c n words.old words.new result }
{
    if has == 0 {
        return At { n: n, c: c };
    }
    let a = read_runway(s, c);
    let x = a.v;
    let d = a.c;
    if d.why != 0 {
        return At { n: n, c: d };
    }
    let m = tell_runway(words, n, 0, tag, tag + 1, x);
    At { n: m, c: d }
}

pub fn procedure_part(s: &[u8], words: &mut [u64], n: usize, c: Cursor, has: u64, tag: u64) -> At
    requires { (n < 2 ^ 30) × (tag < 2 ^ 16) }
    ensures { Optional 129 has (procedure tag (tag + 1) (tag + 2)) s.now c n words.old words.new result }
{
    if has == 0 {
        return At { n: n, c: c };
    }
    let a = read_procedure(s, c);
    let x = a.v;
    let d = a.c;
    if d.why != 0 {
        return At { n: n, c: d };
    }
    let m = tell_procedure(words, n, 0, tag, tag + 1, tag + 2, s, x);
    At { n: m, c: d }
}
