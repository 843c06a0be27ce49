// The name in a frame: the aircraft identifier of a forward message that the uplink reading calls clean.
#![tactic(auto)]

ghost use Rattle.std.specs.Prelude.{◌≡◌, false, List, ℕ, ◌≤◌, length};
ghost use Rattle.atn.specs.Reading.{Rec};
ghost use Rattle.atn.specs.Entries.{accept, read_frame};
ghost use Rattle.atn.specs.Messages.{ground_pdus};
ghost use Rattle.forward_names.specs.Names.{turned, name_in, forward_name};

use answers::LONGEST_FRAME;
use cpdlc_frames::try_frame;
use cpdlc_tags::AIRCRAFT_ID;
use cursor::place::{Cursor, bits};
use forward_headers::read_header;
use lent_tables::tables_fit;
use per::units::Octets;
use tell::tell_text;
use verdicts::Verdict;

// `number` is 0 for a name: its characters as its record has them, the first in the highest octet, how many they are, and the message's reach.
// Else it is the refusal of the reading, or 19 where that is not clean or is of no forward message; text and size are 0 then. `lacked` is the bits lacked where the reading ran out, else 0.
#[derive(Clone, Copy)]
pub struct Named {
    pub number: u64,
    pub reach: usize,
    pub lacked: usize,
    pub text: u64,
    pub size: u64,
}

// The index of the forward message among the uplink's alternatives.
const FORWARD: u64 = 4;

pub fn forward_name(frame: &[u8], down: &[u8], up: &[u8]) -> Named
    ensures { result ≡ forward_name frame.now down.now up.now }
{
    if LONGEST_FRAME < frame.len() {
        return no_name(1, 0, 0);
    }
    if !tables_fit(down, up) {
        return no_name(2, 0, 0);
    }
    let mut spare = [0u64; 5];
    let v = try_frame(frame, &mut spare, 1, down, up);
    if v.why == 7 {
        return no_name(19, v.reach, 0);
    }
    if v.why != 0 {
        return no_name(v.why % 16, v.reach, (v.why / 16) as usize);
    }
    if v.marks != 0 {
        return no_name(19, v.reach, 0);
    }
    clean_name(frame, v.reach)
}

fn no_name(number: u64, reach: usize, lacked: usize) -> Named
    ensures { result ≡ turned number reach lacked }
{
    Named {
        number: number,
        reach: reach,
        lacked: lacked,
        text: 0,
        size: 0,
    }
}

// The name of a clean frame, whose header stands at a fixed place.
fn clean_name(frame: &[u8], reach: usize) -> Named
    requires { length frame.now ≤ 65536 }
    ensures { (down up : List ℕ) (R : List Rec) → read_frame (ground_pdus down up) frame.now ≡ accept false reach 0 R → result ≡ name_in reach R }
{
    // behind the extension bit, which is clear where the frame is clean
    let behind = Cursor {
        at: 1,
        end: Octets(frame.len()).bits().0,
        why: 0,
        marks: 0,
    };
    let choice = bits(frame, behind, 3);
    if choice.v != FORWARD {
        return no_name(19, reach, 0);
    }
    let h = read_header(frame, choice.c);
    let header = h.v;
    let name = header.name;
    let mut words = [0u64; 5];
    tell_text(&mut words, 0, AIRCRAFT_ID, 0, frame, name);
    Named {
        number: 0,
        reach: reach,
        lacked: 0,
        text: words[2],
        size: words[3],
    }
}
