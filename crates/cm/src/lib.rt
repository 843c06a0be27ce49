// Context Management: `parse_cm`. A message is told as it is read, into spare words first, so that a refusal leaves the lent ones and the number of records is known before any is written.
#![tactic(auto)]

ghost use Rattle.std.specs.Prelude.{◌≡◌, ◌≤◌, length};
ghost use Rattle.atn.specs.Entries.{parse_cm, read_frame, settle};
ghost use Rattle.answers.specs.Says.{Says};
ghost use Rattle.cm_pdus.specs.Pdus.{pdu_of};

use answers::{Answer, LONGEST_FRAME, accepted, refused};
use cm_pdus::pdu;
use cursor::place::Cursor;
use per::units::Octets;
use records::space::words_for;
use runs::At;
use spare_words::{CM_SPARE, copy};

// Direction 0 is the aircraft's message, 1 the ground's.
pub fn parse_cm(frame: &[u8], direction: u64, words: &mut [u64]) -> Answer
    ensures { Says result words.new (parse_cm frame.now direction words.old) }
{
    if LONGEST_FRAME < frame.len() {
        return refused(1, 0, 0, 0);
    }
    if 1 < direction {
        return refused(3, 0, 0, 0);
    }
    answer(frame, words, direction == 1)
}

// Spare words by the frame's length, enough for the records of most: a frame of three bytes has three records at most, and those of 31 bytes seldom have more than sixteen. Nothing but the time rests on it.
fn answer(frame: &[u8], words: &mut [u64], ground: bool) -> Answer
    requires { length frame.now ≤ 65536 }
    ensures { Says result words.new (settle (read_frame (pdu_of ground) frame.now) words.old) }
{
    if frame.len() <= 3 {
        let mut spare = [0u64; 15];
        return answer_by(&mut spare, frame, words, ground);
    }
    if frame.len() <= 31 {
        let mut spare = [0u64; 80];
        return answer_by(&mut spare, frame, words, ground);
    }
    let mut spare = [0u64; CM_SPARE];
    answer_by(&mut spare, frame, words, ground)
}

// The reading decides before its records are written.
fn answer_by(spare: &mut [u64], frame: &[u8], words: &mut [u64], ground: bool) -> Answer
    requires { length frame.now ≤ 65536 }
    ensures { Says result words.new (settle (read_frame (pdu_of ground) frame.now) words.old) }
{
    let start = Cursor {
        at: 0,
        end: Octets(frame.len()).bits().0,
        why: 0,
        marks: 0,
    };
    let first = At { n: 0, c: start };
    let tried = pdu(spare, first, frame, ground);
    let c = tried.c;
    if c.why != 0 {
        return refused(c.why % 16, c.at, 0, (c.why / 16) as usize);
    }
    let need = words_for(tried.n);
    if words.len() < need {
        return refused(7, c.at, need, 0);
    }
    if need <= spare.len() {
        copy(&spare[..need], words);
        return accepted(c.at, c.marks, tried.n);
    }
    // no more words than the records need, so that those behind them stay
    pdu(&mut words[..need], first, frame, ground);
    accepted(c.at, c.marks, tried.n)
}
