// A frame read into spare words first. Where its records do not fit those, it is read again into the lent ones.
#![tactic(auto)]

ghost use Rattle.std.specs.Prelude.{◌≡◌, ℕ, ◌+◌, ◌*◌, ◌≤◌, ◌<◌, ◌^◌, length, List};
ghost use Rattle.answers.specs.Says.{Says};
ghost use Rattle.atn.specs.Entries.{Reply, accept, pdus, read_frame, settle};
ghost use Rattle.atn.specs.Reading.{Rec};
ghost use Rattle.pdus.specs.Pdus.{pdu_at};
ghost use Rattle.runs.specs.Runs.{Runs};
ghost use Rattle.sends.specs.Sends.{Sends};
ghost use Rattle.verdicts.specs.Verdicts.{verdict_of, Tried, Tells, Kept, Follows};

use answers::Answer;
use cursor::place::Cursor;
use pdus::choices::read_pdu;
use per::room::holds;
use per::units::Octets;
use records::space::words_for;
use runs::At;
use sends::{Send, find_send, read_send};
use spare_words::copy;
use verdicts::Verdict;

// The window is the whole frame.
fn start(frame: &[u8]) -> Cursor
    requires { length frame.now ≤ 65536 }
    ensures { result ≡ record { at = 0; end = length frame.now * 8; why = 0; marks = 0 } }
{
    Cursor {
        at: 0,
        end: Octets(frame.len()).bits().0,
        why: 0,
        marks: 0,
    }
}

// What is left of a reading from the frame's first bit on.
fn verdict(x: At) -> Verdict
    ensures { (d : ℕ) (down up s w k : List ℕ) → Runs 236124 (pdu_at d down up s) s (record { at = 0; end = length s * 8; why = 0; marks = 0 }) 0 w k x → Tried (read_frame (pdus d down up) s) result k }
{
    let count = x.n;
    let c = x.c;
    let why = c.why;
    let reach = c.at;
    let marks = c.marks;
    if why == 0 {
        return Verdict {
            why: 0,
            reach: reach,
            marks: marks,
            count: count,
        };
    }
    if why == 7 {
        return Verdict {
            why: 7,
            reach: reach,
            marks: marks,
            count: count,
        };
    }
    Verdict {
        why: why,
        reach: reach,
        marks: 0,
        count: 0,
    }
}

// The reading into spare words: it counts the records, and keeps them if they fit.
pub fn try_frame(frame: &[u8], spare: &mut [u64], direction: u64, down: &[u8], up: &[u8]) -> Verdict
    requires { (length frame.now ≤ 65536) × (1 ≤ length down.now) × (length down.now ≤ 256) × (1 ≤ length up.now) × (length up.now ≤ 256) × (direction ≤ 1) }
    ensures { Tried (read_frame (pdus direction down.now up.now) frame.now) result spare.new }
{
    let x = read_pdu(frame, spare, 0, start(frame), direction, down, up);
    verdict(x)
}

// The same of a send that holds its string.
pub fn try_send(
    frame: &[u8],
    spare: &mut [u64],
    direction: u64,
    send: Send,
    down: &[u8],
    up: &[u8],
) -> Verdict
    requires { (length frame.now ≤ 65536) × (1 ≤ length down.now) × (length down.now ≤ 256) × (1 ≤ length up.now) × (length up.now ≤ 256) × (direction ≤ 1) × Sends direction frame.now send × (send.at + send.count ≤ length frame.now * 8) }
    ensures { Tried (read_frame (pdus direction down.now up.now) frame.now) result spare.new }
{
    let index = send.index;
    let at = send.at;
    let count = send.count;
    if direction == 0 {
        let x = read_send(frame, spare, direction, index, at, count, down);
        return verdict(x);
    }
    let x = read_send(frame, spare, direction, index, at, count, up);
    verdict(x)
}

// The same of any frame: a send that holds its string is read as such.
pub fn try_any(frame: &[u8], spare: &mut [u64], direction: u64, down: &[u8], up: &[u8]) -> Verdict
    requires { (length frame.now ≤ 65536) × (1 ≤ length down.now) × (length down.now ≤ 256) × (1 ≤ length up.now) × (length up.now ≤ 256) × (direction ≤ 1) }
    ensures { Tried (read_frame (pdus direction down.now up.now) frame.now) result spare.new }
{
    let send = find_send(frame, direction);
    if send.at != 0 {
        if holds(frame, send.at + send.count) {
            return try_send(frame, spare, direction, send, down, up);
        }
    }
    try_frame(frame, spare, direction, down, up)
}

// The records of an accepted reading, where they fit.
fn write_frame(
    frame: &[u8],
    words: &mut [u64],
    spare: &[u64],
    direction: u64,
    down: &[u8],
    up: &[u8],
    cut: bool,
    v: Verdict,
) -> Answer
    requires { (length frame.now ≤ 65536) × (1 ≤ length down.now) × (length down.now ≤ 256) × (1 ≤ length up.now) × (length up.now ≤ 256) × (direction ≤ 1) × (v.count < 2 ^ 32) }
    ensures { Kept (read_frame (pdus direction down.now up.now) frame.now) spare.now → (R : List Rec) → v.count ≡ length R → Tells R (read_frame (pdus direction down.now up.now) frame.now) → Says result words.new (settle (accept cut v.reach v.marks R) words.old) }
{
    let need = words_for(v.count);
    if words.len() < need {
        return Answer::Refused {
            number: 7,
            reach: v.reach,
            need: need,
            lacked: 0,
        };
    }
    if need <= spare.len() {
        copy(&spare[..need], words);
        return Answer::Accepted {
            cut: cut,
            reach: v.reach,
            marks: v.marks,
            count: v.count,
        };
    }
    // no more words than the records need, so that those behind them stay
    read_pdu(
        frame,
        &mut words[..need],
        0,
        start(frame),
        direction,
        down,
        up,
    );
    Answer::Accepted {
        cut: cut,
        reach: v.reach,
        marks: v.marks,
        count: v.count,
    }
}

// The answer of a verdict: the records are those of the direction's reading.
pub fn answer_frame(
    frame: &[u8],
    words: &mut [u64],
    spare: &[u64],
    direction: u64,
    down: &[u8],
    up: &[u8],
    v: Verdict,
) -> Answer
    requires { (length frame.now ≤ 65536) × (1 ≤ length down.now) × (length down.now ≤ 256) × (1 ≤ length up.now) × (length up.now ≤ 256) × (direction ≤ 1) × (v.count < 2 ^ 32) }
    ensures { Kept (read_frame (pdus direction down.now up.now) frame.now) spare.now → (u : Reply) → v ≡ verdict_of u → Follows u (read_frame (pdus direction down.now up.now) frame.now) → Says result words.new (settle u words.old) }
{
    let cut = v.why == 7;
    if cut || v.why == 0 {
        return write_frame(frame, words, spare, direction, down, up, cut, v);
    }
    Answer::Refused {
        number: v.why % 16,
        reach: v.reach,
        need: 0,
        lacked: (v.why / 16) as usize,
    }
}
