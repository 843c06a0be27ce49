// The call of an entry that a case names; what names none is refused by 0, and the words stay.
#![tactic(auto)]

ghost use Rattle.answers.specs.Says.{Says};
ghost use Rattle.entry_calls.specs.Calls.{outcome};

use acse::parse_acse_apdu;
use answers::Answer;
use cm::parse_cm;
use cpdlc::{parse_apdu, parse_pdus};
use entry_names::Entry;

pub fn call(
    entry: Option<Entry>,
    direction: u64,
    down: &[u8],
    up: &[u8],
    frame: &[u8],
    words: &mut [u64],
) -> Answer
    ensures { Says result words.new (outcome entry direction down.now up.now frame.now words.old) }
{
    match entry {
        Some(Entry::Apdu) => parse_apdu(frame, down, up, words),
        Some(Entry::Pdus) => parse_pdus(frame, direction, down, up, words),
        Some(Entry::Cm) => parse_cm(frame, direction, words),
        Some(Entry::Acse) => parse_acse_apdu(frame, words),
        None => Answer::Refused {
            number: 0,
            reach: 0,
            need: 0,
            lacked: 0,
        },
    }
}
