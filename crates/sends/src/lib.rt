// Frames that are a send, or a start of the uplink, in the form that most have: found by their first bits, so that the message's length is known before anything is told.
#![tactic(auto)]

ghost use Rattle.std.specs.Prelude.{◌≡◌, true, List, ℕ, ◌+◌, ◌*◌, ◌≤◌, ◌<◌, length};
ghost use Rattle.x691.specs.Bits.{bit_of, uint};
ghost use Rattle.pdus.specs.Pdus.{pdu_at};
ghost use Rattle.runs.specs.Runs.{Runs};
ghost use Rattle.sends.specs.Sends.{Protected, Shortest, Sends, table_of};

use cpdlc_tags::{DIRECTION, PDU};
use cursor::place::{Cursor, bits};
use inner_messages::read_found;
use integrity::read_integrity;
use pdus::choices::index_bits;
use per::number::uint;
use per::units::Octets;
use records::emit;
use runs::At;

// The index of its alternative, the first bit of the message's string, and the bits of the string. At 0 the frame is none of these, or not in this form.
#[derive(Clone, Copy)]
pub struct Send {
    pub index: u64,
    pub at: usize,
    pub count: usize,
}

fn none() -> Send
    ensures { result.at ≡ 0 }
{
    Send {
        index: 0,
        at: 0,
        count: 0,
    }
}

// The string behind its length, which is at `at`: of these 16 bits the first eight are the short form, or all the long one.
fn behind_length(index: u64, at: usize, size: u64) -> Send
    requires { (at ≤ 7) × (size < 65536) }
    ensures { (s : List ℕ) → uint (bit_of s) at 16 ≡ size → (result.at ≡ 0 → ⊥) → (result.index ≡ index) × Shortest (bit_of s) at result.count result.at }
{
    if size < 0x8000 {
        return Send {
            index: index,
            at: at + 8,
            count: (size / 256) as usize,
        };
    }
    if size < 0x8080 {
        return none();
    }
    if size < 0xc000 {
        return Send {
            index: index,
            at: at + 16,
            count: (size - 0x8000) as usize,
        };
    }
    none()
}

// Whether this alternative is a protected message and nothing else: a send, and of the uplink a start.
fn is_protected(direction: u64, index: u64) -> bool
    ensures { result ≡ true → Protected direction index }
{
    if index == 3 {
        return true;
    }
    if index == 2 {
        if direction != 0 {
            return true;
        }
    }
    false
}

pub fn find_send(frame: &[u8], direction: u64) -> Send
    requires { direction ≤ 1 }
    ensures { (result.at ≡ 0 → ⊥) → Sends direction frame.now result }
{
    if frame.len() < 4 {
        return none();
    }
    let width = index_bits(direction);
    let bits = uint(frame, 0, width + 20);
    // behind the extension bit of the choice its index, then the extension bit of the protected message, and whether it has an algorithm and a message
    let head = bits / 65536;
    if head % 8 != 1 {
        return none();
    }
    let index = head / 8;
    if !is_protected(direction, index) {
        return none();
    }
    behind_length(index, width + 4, bits % 65536)
}

// The message of such a frame, which holds its string.
pub fn read_send(
    s: &[u8],
    words: &mut [u64],
    direction: u64,
    index: u64,
    at: usize,
    count: usize,
    table: &[u8],
) -> At
    requires { (length s.now ≤ 65536) × (direction ≤ 1) × (1 ≤ length table.now) × (length table.now ≤ 256) × Sends direction s.now (record { index = index; at = at; count = count }) × (at + count ≤ length s.now * 8) }
    ensures { (down up : List ℕ) → table.now ≡ table_of direction down up → Runs 236124 (pdu_at direction down up s.now) s.now (record { at = 0; end = length s.now * 8; why = 0; marks = 0 }) 0 words.old words.new result }
{
    let end = at + count;
    let m = emit(words, 0, DIRECTION, 0, direction, 0, 0);
    let n = emit(words, m, PDU, 0, index, 0, 1);
    let window = Cursor {
        at: at % 8,
        end: at % 8 + count,
        why: 0,
        marks: 0,
    };
    let behind = Cursor {
        at: end,
        end: Octets(s.len()).bits().0,
        why: 0,
        marks: 0,
    };
    let x = read_found(s, words, n, at / 8, (end + 7) / 8, window, behind, table);
    let k = x.n;
    let d = x.c;
    if d.why != 0 {
        return x;
    }
    // most have no integrity check: its length is 0
    let none = bits(s, d, 8);
    let e = none.c;
    if e.why == 0 {
        if none.v == 0 {
            return At { n: k, c: e };
        }
    }
    read_integrity(s, words, k, d)
}
