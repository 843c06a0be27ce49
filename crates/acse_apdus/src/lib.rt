// The message: an extension bit, the index of one of five, and its body.
#![tactic(auto)]

ghost use Rattle.std.specs.Prelude.{◌≡◌, ◌≤◌, length};
ghost use Rattle.acse_apdus.specs.Apdus.{heard_of, Hears};

use acse_bodies::{Body, read_body, unread};
use acse_reasons::few::few;
use acse_reasons::notes::Note;
use cursor::place::Cursor;
use per::units::Octets;

// Accepted: whether cut, the reach and the marks; the record of the message, by its value, second number and place, and two at most behind it.
#[derive(Clone, Copy)]
pub struct Message {
    pub cut: bool,
    pub reach: usize,
    pub marks: u64,
    pub pdu: u64,
    pub second: u64,
    pub at: usize,
    pub first: Note,
    pub next: Note,
}

// A message, or the reach where the frame ran out, with the bits lacked, or was badly formed.
#[derive(Clone, Copy)]
pub enum Apdu {
    Heard(Message),
    RanOut(usize, usize),
    Badly(usize),
}

// A body that the frame ended in is accepted, and cut.
fn heard(pdu: u64, second: u64, at: usize, body: Body) -> Apdu
    ensures { result ≡ heard_of pdu second at body }
{
    let c = body.c;
    let first = body.first;
    let next = body.next;
    let message = Message {
        cut: c.why != 0,
        reach: c.at,
        marks: c.marks,
        pdu: pdu,
        second: second,
        at: at,
        first: first,
        next: next,
    };
    Apdu::Heard(message)
}

pub fn read_apdu(s: &[u8]) -> Apdu
    requires { length s.now ≤ 65536 }
    ensures { Hears s.now result }
{
    let start = Cursor {
        at: 0,
        end: Octets(s.len()).bits().0,
        why: 0,
        marks: 0,
    };
    let extension = few(s, start, 1);
    let c = extension.c;
    if c.why != 0 {
        return Apdu::RanOut(c.at, (c.why / 16) as usize);
    }
    if extension.v != 0 {
        return heard(0, 1, c.at, unread(c, 2));
    }
    let index = few(s, c, 3);
    let pdu = index.v;
    let d = index.c;
    if d.why != 0 {
        return Apdu::RanOut(d.at, (d.why / 16) as usize);
    }
    if 4 < pdu {
        return Apdu::Badly(d.at);
    }
    let body = read_body(s, d, pdu);
    heard(pdu, 0, c.at, body)
}
