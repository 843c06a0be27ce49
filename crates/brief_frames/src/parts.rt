// The parts of the message choice that have no message in them, by value.
ghost use Rattle.std.specs.Prelude.{◌≡◌, List, [], ◌∷◌, ℕ, ◌+◌, ◌*◌, ◌≤◌, length};
ghost use Rattle.x691.specs.Bits.{bit_of};
ghost use Rattle.x691.specs.Encoding.{width};
ghost use Rattle.atn.specs.Messages.{ext_reason, extension_alternative};
ghost use Rattle.atn.specs.Reading.{rec, glue, mark, read};
ghost use Rattle.atn.specs.Tags as tags;
ghost use Rattle.ample_bits.specs.Ahead.{Ahead};
ghost use Rattle.brief_frames.specs.Briefs.{behind_direction, Came};

use ample_bits::{behind, first};
use ample_readings::above;
use cpdlc_tags::EXTENSION_INDEX;
use cursor::place::{Cursor, ran_out};
use length_determinants::small;
use per::width::bits_for;

// Why the frame is refused, 0 where it is not: document 01's number, and 16 times the bits lacked where it ran out. Then what the record of its choice and the one behind that tell, the reach and the marks.
#[derive(Clone, Copy)]
pub struct Brief {
    pub why: u64,
    pub index: u64,
    pub extended: u64,
    pub tag: u64,
    pub value: u64,
    pub second: u64,
    pub place: usize,
    pub reach: usize,
    pub marks: u64,
}

pub fn stopped(why: u64, reach: usize) -> Brief
    ensures { (result.why ≡ why) × (result.reach ≡ reach) }
{
    Brief {
        why: why,
        index: 0,
        extended: 0,
        tag: 0,
        value: 0,
        second: 0,
        place: 0,
        reach: reach,
        marks: 0,
    }
}

// Behind a set extension bit stands a normally small number, mostly in its short form. These bits are ahead of it.
pub fn extension(frame: &[u8], v: u64, end: usize) -> Brief
    requires { (length frame.now ≤ 65536) × (end ≡ length frame.now * 8) × (8 ≤ end) × Ahead frame.now 1 15 v }
    ensures { Came (glue [] (mark 2) (read extension_alternative (0, 0) (bit_of frame.now) end 1)) (behind_direction result) result }
{
    if first(v, 1) == 0 {
        let value = first(behind(v, 1), 6);
        return Brief {
            why: 0,
            index: 0,
            extended: 1,
            tag: EXTENSION_INDEX,
            value: value,
            second: 0,
            place: 1,
            reach: 8,
            marks: 2,
        };
    }
    let start = Cursor {
        at: 1,
        end: end,
        why: 0,
        marks: 2,
    };
    let g = small(frame, start);
    let c = g.c;
    Brief {
        why: c.why,
        index: 0,
        extended: 1,
        tag: EXTENSION_INDEX,
        value: g.v,
        second: 0,
        place: 1,
        reach: c.at,
        marks: c.marks,
    }
}

// A reason from 0 on, behind the choice's index, by the bits ahead of it. Above the highest it is told too, with mark 1.
pub fn reason(v: u64, index: u64, at: usize, end: usize, tag: u64, highest: u64) -> Brief
    requires { (at + 1 ≤ end) × (end ≤ 524288) × (1 ≤ width highest) × (width highest ≤ 8) }
    ensures { (s : List ℕ) → Ahead s at 12 v → Came (glue (rec tags.pdu 0 index 0 1 ∷ []) 0 (read (ext_reason tag highest) (0, 0) (bit_of s) end at)) (behind_direction result) result }
{
    let place = at + 1;
    if first(v, 1) != 0 {
        return Brief {
            why: 0,
            index: index,
            extended: 0,
            tag: tag,
            value: 0,
            second: 1,
            place: place,
            reach: place,
            marks: 2,
        };
    }
    let wide = bits_for(highest);
    let reach = place + wide;
    if end < reach {
        return stopped(ran_out(reach - end), place);
    }
    let value = first(behind(v, 1), wide);
    let marks = above(value, highest);
    Brief {
        why: 0,
        index: index,
        extended: 0,
        tag: tag,
        value: value,
        second: 0,
        place: place,
        reach: reach,
        marks: marks,
    }
}
