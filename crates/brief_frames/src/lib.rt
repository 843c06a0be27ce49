// Frames without a message. They are read by value, and told in three records once it is known that these fit.
#![tactic(auto)]

ghost use Rattle.std.specs.Prelude.{List, ℕ, ◌≤◌, length};
ghost use Rattle.atn.specs.Entries.{pdus, read_frame, settle};
ghost use Rattle.records.specs.Space.{space};
ghost use Rattle.records.specs.Told.{Told};
ghost use Rattle.answers.specs.Says.{Says};
ghost use Rattle.brief_frames.specs.Bare.{Bare};
ghost use Rattle.brief_frames.specs.Briefs.{brief_records};

use answers::{Answer, accepted, refused};
use cpdlc_tags::{DIRECTION, PDU};
use parts::Brief;
use reading::read_brief;
use records::space::words_for;
use records::store;

pub mod bare; // bare.rt: whether the first octet names no message
mod parts; // parts.rt: the extension and the reasons
mod reading; // reading.rt: the whole frame

// Its records, from the front on.
fn tell(words: &mut [u64], direction: u64, brief: Brief) -> usize
    requires { space 3 ≤ length words.old }
    ensures { Told 3 words.old words.new 0 result (brief_records direction brief) }
{
    let m = store(words, 0, DIRECTION, 0, direction, 0, 0);
    let n = store(words, m, PDU, 0, brief.index, brief.extended, 1);
    store(
        words,
        n,
        brief.tag,
        0,
        brief.value,
        brief.second,
        brief.place,
    )
}

pub fn parse_brief(frame: &[u8], direction: u64, words: &mut [u64]) -> Answer
    requires { (length frame.now ≤ 65536) × (direction ≤ 1) × Bare direction frame.now }
    ensures { (down up : List ℕ) → Says result words.new (settle (read_frame (pdus direction down up) frame.now) words.old) }
{
    let brief = read_brief(frame, direction);
    let reach = brief.reach;
    let marks = brief.marks;
    if brief.why != 0 {
        return refused(brief.why % 16, reach, 0, (brief.why / 16) as usize);
    }
    let need = words_for(3);
    if words.len() < need {
        return refused(7, reach, need, 0);
    }
    // no more words than the records need, so that those behind them stay
    tell(&mut words[..need], direction, brief);
    accepted(reach, marks, 3)
}
