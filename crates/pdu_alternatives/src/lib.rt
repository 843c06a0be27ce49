// The alternatives of the message choice, of both directions.
#![tactic(auto)]

ghost use Rattle.std.specs.Prelude.{[], ◌≤◌, ◌<◌, ◌^◌, length};
ghost use Rattle.pdu_alternatives.specs.Alternatives.{start_at, alternative_at};
ghost use Rattle.runs.specs.Runs.{Runs};

use cursor::place::{Cursor, presence, stop};
use field_ranges::table::{FORWARD_RESPONSE, PROVIDER_ABORT_REASON, SIDE, USER_ABORT_REASON};
use forward::read_forward;
use message_fields::maybe_number_field;
use pdu_parts::reason_part;
use protected::read_protected;
use runs::At;

// The start of a downlink: its mode, and the protected message.
fn read_start(s: &[u8], words: &mut [u64], n: usize, c: Cursor, down: &[u8]) -> At
    requires { (length s.now ≤ 65536) × (n < 2 ^ 20) × (1 ≤ length down.now) × (length down.now ≤ 256) }
    ensures { Runs 236061 (start_at down.now s.now) s.now c n words.old words.new result }
{
    let has = presence(s, c, 1);
    let d = has.c;
    let first = At { n: n, c: d };
    let x = maybe_number_field(s, words, first, has.v % 2, SIDE, cpdlc_tags::MODE);
    let m = x.n;
    read_protected(s, words, m, x.c, down)
}

fn down_alternative(s: &[u8], words: &mut [u64], n: usize, c: Cursor, index: u64, down: &[u8]) -> At
    requires { (length s.now ≤ 65536) × (n < 2 ^ 20) × (1 ≤ length down.now) × (length down.now ≤ 256) }
    ensures { Runs 236122 (alternative_at 0 index down.now [] s.now) s.now c n words.old words.new result }
{
    if index == 0 {
        return reason_part(
            s,
            words,
            n,
            c,
            USER_ABORT_REASON,
            cpdlc_tags::USER_ABORT_REASON,
        );
    }
    if index == 1 {
        return reason_part(
            s,
            words,
            n,
            c,
            PROVIDER_ABORT_REASON,
            cpdlc_tags::PROVIDER_ABORT_REASON,
        );
    }
    if index == 2 {
        return read_start(s, words, n, c, down);
    }
    if index == 3 {
        return read_protected(s, words, n, c, down);
    }
    let d = stop(c, 5, 1);
    At { n: n, c: d }
}

fn up_alternative(
    s: &[u8],
    words: &mut [u64],
    n: usize,
    c: Cursor,
    index: u64,
    down: &[u8],
    up: &[u8],
) -> At
    requires { (length s.now ≤ 65536) × (n < 2 ^ 20) × (1 ≤ length down.now) × (length down.now ≤ 256) × (1 ≤ length up.now) × (length up.now ≤ 256) }
    ensures { Runs 236122 (alternative_at 1 index down.now up.now s.now) s.now c n words.old words.new result }
{
    if index == 0 {
        return reason_part(
            s,
            words,
            n,
            c,
            USER_ABORT_REASON,
            cpdlc_tags::USER_ABORT_REASON,
        );
    }
    if index == 1 {
        return reason_part(
            s,
            words,
            n,
            c,
            PROVIDER_ABORT_REASON,
            cpdlc_tags::PROVIDER_ABORT_REASON,
        );
    }
    // a start or a send
    if index < 4 {
        return read_protected(s, words, n, c, up);
    }
    if index == 4 {
        return read_forward(s, words, n, c, down, up);
    }
    if index == 5 {
        return reason_part(
            s,
            words,
            n,
            c,
            FORWARD_RESPONSE,
            cpdlc_tags::FORWARD_RESPONSE,
        );
    }
    let d = stop(c, 5, 1);
    At { n: n, c: d }
}

pub fn alternative(
    s: &[u8],
    words: &mut [u64],
    n: usize,
    c: Cursor,
    direction: u64,
    index: u64,
    down: &[u8],
    up: &[u8],
) -> At
    requires { (length s.now ≤ 65536) × (n < 2 ^ 20) × (1 ≤ length down.now) × (length down.now ≤ 256) × (1 ≤ length up.now) × (length up.now ≤ 256) }
    ensures { Runs 236122 (alternative_at direction index down.now up.now s.now) s.now c n words.old words.new result }
{
    if direction == 0 {
        return down_alternative(s, words, n, c, index, down);
    }
    up_alternative(s, words, n, c, index, down, up)
}
