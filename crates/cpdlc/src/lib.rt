// CPDLC: `parse_pdus` and `parse_apdu`. A frame with a message is read into spare words first, so that a refusal leaves the lent ones and the number of records is known before any is written.
#![tactic(auto)]

ghost use Rattle.std.specs.Prelude.{◌≡◌, true, List, ℕ, ◌+◌, ◌*◌, ◌≤◌, length};
ghost use Rattle.atn.specs.Entries.{parse_pdus, parse_apdu, pdus, read_frame, settle};
ghost use Rattle.answers.specs.declared.Answer.TheVariants.{Refused};
ghost use Rattle.answers.specs.Says.{Says};
ghost use Rattle.sends.specs.Sends.{Sends};

use answers::{Answer, LONGEST_FRAME, refused};
use brief_frames::bare::is_bare;
use brief_frames::parse_brief;
use cpdlc_frames::{answer_frame, try_any, try_frame, try_send};
use lent_tables::tables_fit;
use message::unlisted::has_unlisted;
use per::units::Octets;
use sends::{Send, find_send};
use spare_words::CPDLC_SPARE;
use verdicts::{Verdict, after_bad, after_out};

// A frame of fewer octets seldom has more records than these words hold, eight.
const SHORT_FRAME: usize = 4;

const SHORT_SPARE: usize = 40;

// A string of so many bits seldom has more records than these words hold, sixteen.
const FEW_BITS: usize = 76;

const FEW_SPARE: usize = 80;

// A string of so many bits may have many records, and these words hold 1,248: more than a clearance of 128 legs mostly has.
const MANY_BITS: usize = 1024;

const MANY_SPARE: usize = 6240;

// A frame of a known direction: 0 is the downlink, 1 the uplink.
pub fn parse_pdus(frame: &[u8], direction: u64, down: &[u8], up: &[u8], words: &mut [u64]) -> Answer
    ensures { Says result words.new (parse_pdus frame.now direction down.now up.now words.old) }
{
    if LONGEST_FRAME < frame.len() {
        return refused(1, 0, 0, 0);
    }
    if !tables_fit(down, up) {
        return refused(2, 0, 0, 0);
    }
    if 1 < direction {
        return refused(3, 0, 0, 0);
    }
    let send = find_send(frame, direction);
    if send.at != 0 {
        return parse_send(frame, direction, send, down, up, words);
    }
    if is_bare(frame, direction) {
        return parse_brief(frame, direction, words);
    }
    if frame.len() < SHORT_FRAME {
        let mut short = [0u64; SHORT_SPARE];
        let v = try_frame(frame, &mut short, direction, down, up);
        return answer_frame(frame, words, &short, direction, down, up, v);
    }
    let mut spare = [0u64; CPDLC_SPARE];
    let v = try_frame(frame, &mut spare, direction, down, up);
    answer_frame(frame, words, &spare, direction, down, up, v)
}

// A send. Where its string does not end in the frame, or its message names an element outside the table, it is refused before spare words are cleared.
fn parse_send(
    frame: &[u8],
    direction: u64,
    send: Send,
    down: &[u8],
    up: &[u8],
    words: &mut [u64],
) -> Answer
    requires { (length frame.now ≤ 65536) × (1 ≤ length down.now) × (length down.now ≤ 256) × (1 ≤ length up.now) × (length up.now ≤ 256) × (direction ≤ 1) × Sends direction frame.now send }
    ensures { Says result words.new (settle (read_frame (pdus direction down.now up.now) frame.now) words.old) }
{
    let left = Octets(frame.len()).bits().0 - send.at;
    if left < send.count {
        return refused(4, send.at, 0, send.count - left);
    }
    if names_unlisted(frame, direction, send, down, up) {
        return refused(5, send.at + send.count, 0, 0);
    }
    if send.count <= FEW_BITS {
        let mut few = [0u64; FEW_SPARE];
        let v = try_send(frame, &mut few, direction, send, down, up);
        return answer_frame(frame, words, &few, direction, down, up, v);
    }
    if MANY_BITS <= send.count {
        if direction == 0 {
            return parse_long(frame, direction, send, down, up, words);
        }
        return parse_long(frame, direction, send, down, up, words);
    }
    let mut spare = [0u64; CPDLC_SPARE];
    let v = try_send(frame, &mut spare, direction, send, down, up);
    answer_frame(frame, words, &spare, direction, down, up, v)
}

// Whether the message of a send that holds its string names an element outside the table of its direction: then it is badly formed. Of a long one, which is seldom so, this is not asked.
fn names_unlisted(frame: &[u8], direction: u64, send: Send, down: &[u8], up: &[u8]) -> bool
    requires { (length frame.now ≤ 65536) × (1 ≤ length down.now) × (length down.now ≤ 256) × (1 ≤ length up.now) × (length up.now ≤ 256) × (direction ≤ 1) × Sends direction frame.now send × (send.at + send.count ≤ length frame.now * 8) }
    ensures { result ≡ true → (w : List ℕ) → Says (Refused 5 (send.at + send.count) 0 0) w (settle (read_frame (pdus direction down.now up.now) frame.now) w) }
{
    let end = send.at + send.count;
    if MANY_BITS <= send.count {
        return false;
    }
    if direction == 0 {
        return has_unlisted(frame, send.at, end, down);
    }
    has_unlisted(frame, send.at, end, up)
}

// The same with many spare words. It is called twice so that it stays a function of its own, and other frames do without its stack.
fn parse_long(
    frame: &[u8],
    direction: u64,
    send: Send,
    down: &[u8],
    up: &[u8],
    words: &mut [u64],
) -> Answer
    requires { (length frame.now ≤ 65536) × (1 ≤ length down.now) × (length down.now ≤ 256) × (1 ≤ length up.now) × (length up.now ≤ 256) × (direction ≤ 1) × Sends direction frame.now send × (send.at + send.count ≤ length frame.now * 8) }
    ensures { Says result words.new (settle (read_frame (pdus direction down.now up.now) frame.now) words.old) }
{
    let mut many = [0u64; MANY_SPARE];
    let v = try_send(frame, &mut many, direction, send, down, up);
    answer_frame(frame, words, &many, direction, down, up, v)
}

// A frame of either direction: the downlink is read first, and the uplink where that is refused with 4 or 5.
pub fn parse_apdu(frame: &[u8], down: &[u8], up: &[u8], words: &mut [u64]) -> Answer
    ensures { Says result words.new (parse_apdu frame.now down.now up.now words.old) }
{
    if LONGEST_FRAME < frame.len() {
        return refused(1, 0, 0, 0);
    }
    if !tables_fit(down, up) {
        return refused(2, 0, 0, 0);
    }
    let mut spare = [0u64; CPDLC_SPARE];
    let v = try_any(frame, &mut spare, 0, down, up);
    if v.why % 16 == 4 {
        let u = try_any(frame, &mut spare, 1, down, up);
        let x = after_out(v.reach, v.why, u);
        return answer_frame(frame, words, &spare, 1, down, up, x);
    }
    if v.why == 5 {
        let u = try_any(frame, &mut spare, 1, down, up);
        let x = after_bad(v.reach, u);
        return answer_frame(frame, words, &spare, 1, down, up, x);
    }
    answer_frame(frame, words, &spare, 0, down, up, v)
}
