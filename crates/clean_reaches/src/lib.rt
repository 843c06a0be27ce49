// How far the clean message at the front of a frame goes. Its records are not wanted: the reading is lent one word, in which none fits.
#![tactic(auto)]

ghost use Rattle.std.specs.Prelude.{◌≡◌, List, ◌≤◌, length};
ghost use Rattle.atn.specs.Reading.{Rec};
ghost use Rattle.atn.specs.Messages.{acse};
ghost use Rattle.atn.specs.Entries.{accept, pdus, read_frame};
ghost use Rattle.cm_pdus.specs.Pdus.{pdu_of};
ghost use Rattle.message_runs.specs.Runs.{format_of, clean_reach};
ghost use Rattle.clean_reaches.specs.Reaches.{reach_of};

use acse_apdus::{Apdu, read_apdu};
use cm_pdus::pdu;
use cpdlc_frames::try_frame;
use cursor::place::Cursor;
use message_runs::Kind;
use per::units::Octets;
use runs::At;

// The bits of the clean message, if there is one.
pub fn clean_reach(
    kind: Kind,
    direction: u64,
    down: &[u8],
    up: &[u8],
    frame: &[u8],
) -> Option<usize>
    requires { (length frame.now ≤ 65536) × (1 ≤ length down.now) × (length down.now ≤ 256) × (1 ≤ length up.now) × (length up.now ≤ 256) × (direction ≤ 1) }
    ensures { reach_of result ≡ clean_reach (read_frame (format_of kind direction down.now up.now) frame.now) }
{
    match kind {
        Kind::Cpdlc => cpdlc_reach(direction, down, up, frame),
        Kind::Cm => cm_reach(direction == 1, frame),
        Kind::Acse => acse_reach(frame),
    }
}

fn cpdlc_reach(direction: u64, down: &[u8], up: &[u8], frame: &[u8]) -> Option<usize>
    requires { (length frame.now ≤ 65536) × (1 ≤ length down.now) × (length down.now ≤ 256) × (1 ≤ length up.now) × (length up.now ≤ 256) × (direction ≤ 1) }
    ensures { reach_of result ≡ clean_reach (read_frame (pdus direction down.now up.now) frame.now) }
{
    let mut spare = [0u64; 1];
    let v = try_frame(frame, &mut spare, direction, down, up);
    if v.why != 0 {
        return None;
    }
    clean(false, v.reach, v.marks)
}

fn cm_reach(ground: bool, frame: &[u8]) -> Option<usize>
    requires { length frame.now ≤ 65536 }
    ensures { reach_of result ≡ clean_reach (read_frame (pdu_of ground) frame.now) }
{
    let start = Cursor {
        at: 0,
        end: Octets(frame.len()).bits().0,
        why: 0,
        marks: 0,
    };
    let first = At { n: 0, c: start };
    let mut spare = [0u64; 1];
    let tried = pdu(&mut spare, first, frame, ground);
    let c = tried.c;
    if c.why != 0 {
        return None;
    }
    clean(false, c.at, c.marks)
}

fn acse_reach(frame: &[u8]) -> Option<usize>
    requires { length frame.now ≤ 65536 }
    ensures { reach_of result ≡ clean_reach (read_frame acse frame.now) }
{
    let apdu = read_apdu(frame);
    match apdu {
        Apdu::Heard(message) => clean(message.cut, message.reach, message.marks),
        Apdu::RanOut(_, _) => None,
        Apdu::Badly(_) => None,
    }
}

// Clean is whole with no marks.
fn clean(cut: bool, reach: usize, marks: u64) -> Option<usize>
    ensures { (R : List Rec) → reach_of result ≡ clean_reach (accept cut reach marks R) }
{
    if cut {
        return None;
    }
    if marks != 0 {
        return None;
    }
    Some(reach)
}
