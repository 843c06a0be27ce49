// A frame without a message, from its first bit on.
ghost use Rattle.std.specs.Prelude.{List, ℕ, ◌*◌, ◌≤◌, length};
ghost use Rattle.x691.specs.Bits.{bit_of};
ghost use Rattle.atn.specs.Entries.{pdus};
ghost use Rattle.atn.specs.Reading.{read};
ghost use Rattle.ample_bits.specs.Ahead.{Ahead};
ghost use Rattle.brief_frames.specs.Bare.{Bare};
ghost use Rattle.brief_frames.specs.Briefs.{brief_records, Came};

use super::parts::{Brief, extension, reason, stopped};
use ample_bits::{behind, first};
use cursor::place::ran_out;
use field_ranges::table::{FORWARD_RESPONSE, PROVIDER_ABORT_REASON, USER_ABORT_REASON};
use pdus::choices::index_bits;
use per::octets::four;
use per::units::Octets;

// The first two octets, at the top of a word. A second that is not there is 0, as bits behind the end are.
fn sixteen(frame: &[u8]) -> u64
    requires { 1 ≤ length frame.now }
    ensures { Ahead frame.now 0 16 result }
{
    if frame.len() == 1 {
        return behind(four(frame[0], 0, 0, 0), 32);
    }
    behind(four(frame[0], frame[1], 0, 0), 32)
}

pub fn read_brief(frame: &[u8], direction: u64) -> Brief
    requires { (length frame.now ≤ 65536) × (direction ≤ 1) × Bare direction frame.now }
    ensures { (down up : List ℕ) → Came (read (pdus direction down up) (0, 0) (bit_of frame.now) (length frame.now * 8) 0) (brief_records direction result) result }
{
    if frame.len() == 0 {
        return stopped(ran_out(1), 0);
    }
    let end = Octets(frame.len()).bits().0;
    let v = sixteen(frame);
    let a = behind(v, 1);
    if first(v, 1) != 0 {
        return extension(frame, a, end);
    }
    let wide = index_bits(direction);
    let index = first(a, wide);
    let at = 1 + wide;
    let b = behind(a, wide);
    if index == 0 {
        let tag = cpdlc_tags::USER_ABORT_REASON;
        return reason(b, index, at, end, tag, USER_ABORT_REASON.hi);
    }
    if index == 1 {
        let tag = cpdlc_tags::PROVIDER_ABORT_REASON;
        return reason(b, index, at, end, tag, PROVIDER_ABORT_REASON.hi);
    }
    if index == 5 {
        let tag = cpdlc_tags::FORWARD_RESPONSE;
        return reason(b, index, at, end, tag, FORWARD_RESPONSE.hi);
    }
    // an index that no alternative has
    stopped(5, at)
}
