// The entries, and the call of one.
ghost use Rattle.answers.specs.Says.{Says};
ghost use Rattle.list_checker.specs.Entered.{entered};

use acse::parse_acse_apdu;
use answers::Answer;
use cm::parse_cm;
use cpdlc::{parse_apdu, parse_pdus};

// A direction is 0 for the aircraft's message and 1 for the ground's; it stays a number, since the entries refuse any other (3).
#[derive(Clone, Copy)]
pub enum Entry {
    Apdu,
    Pdus(u64),
    Cm(u64),
    Acse,
}

pub fn read(frame: &[u8], entry: Entry, down: &[u8], up: &[u8], words: &mut [u64]) -> Answer
    ensures { Says result words.new (entered entry down.now up.now frame.now words.old) }
{
    match entry {
        Entry::Apdu => parse_apdu(frame, down, up, words),
        Entry::Pdus(direction) => parse_pdus(frame, direction, down, up, words),
        Entry::Cm(direction) => parse_cm(frame, direction, words),
        Entry::Acse => parse_acse_apdu(frame, words),
    }
}
