// The protected message: the octets of an algorithm, a message in its inner string, and the integrity check, each of which may be absent.
#![tactic(auto)]

ghost use Rattle.std.specs.Prelude.{[], ◌≤◌, ◌<◌, ◌^◌, length};
ghost use Rattle.cursor.specs.Place.{Reads};
ghost use Rattle.protected.specs.Parts.{algorithm, message_part, protected};
ghost use Rattle.runs.specs.Runs.{Runs};

use cpdlc_tags::EMPTY;
use cursor::place::{Cursor, bits, mark, presence, stop};
use inner_messages::read_inner;
use integrity::read_integrity;
use length_determinants::{length, pass};
use per::units::Octets;
use records::emit;
use runs::At;

// The octets of an algorithm, if they are there. They are not looked at: mark 4.
fn skip_algorithm(s: &[u8], c: Cursor, has: u64) -> Cursor
    requires { length s.now ≤ 65536 }
    ensures { Reads (algorithm has s.now) s.now c result [] }
{
    if has == 0 {
        return c;
    }
    let m = mark(c, 8);
    let l = length(s, m);
    let size = Octets(l.v).bits();
    pass(l.c, size)
}

// The message, or the record that there is none.
fn message_part(s: &[u8], words: &mut [u64], n: usize, c: Cursor, has: u64, table: &[u8]) -> At
    requires { (length s.now ≤ 65536) × (n < 2 ^ 22) × (1 ≤ length table.now) × (length table.now ≤ 256) }
    ensures { Runs 236059 (message_part has table.now s.now) s.now c n words.old words.new result }
{
    if has == 0 {
        if c.why != 0 {
            return At { n: n, c: c };
        }
        let m = emit(words, n, EMPTY, 0, 1, 0, c.at);
        return At { n: m, c: c };
    }
    read_inner(s, words, n, c, table)
}

// A set extension bit has no reader.
pub fn read_protected(s: &[u8], words: &mut [u64], n: usize, c: Cursor, table: &[u8]) -> At
    requires { (length s.now ≤ 65536) × (n < 2 ^ 21) × (1 ≤ length table.now) × (length table.now ≤ 256) }
    ensures { Runs 236060 (protected table.now s.now) s.now c n words.old words.new result }
{
    let extension = bits(s, c, 1);
    if extension.v != 0 {
        let marked = mark(extension.c, 2);
        let d = stop(marked, 5, 0);
        return At { n: n, c: d };
    }
    let has = presence(s, extension.c, 2);
    let d = skip_algorithm(s, has.c, has.v / 2 % 2);
    let x = message_part(s, words, n, d, has.v % 2, table);
    let m = x.n;
    read_integrity(s, words, m, x.c)
}
