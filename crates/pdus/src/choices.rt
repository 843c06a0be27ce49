// The message choice of each direction: 0 is the downlink, 1 the uplink.
ghost use Rattle.std.specs.Prelude.{◌≡◌, ◌≤◌, ◌<◌, ◌^◌, length};
ghost use Rattle.pdus.specs.Pdus.{index_bits, pdu_at};
ghost use Rattle.runs.specs.Runs.{Runs};

use cpdlc_tags::{DIRECTION, PDU};
use cursor::place::{Cursor, bits, mark};
use pdu_alternatives::alternative;
use pdu_parts::read_extension;
use records::emit;
use runs::At;

// The bits of the index.
pub fn index_bits(direction: u64) -> usize
    ensures { result ≡ index_bits direction }
{
    if direction == 0 {
        return 2;
    }
    3
}

// The message, from its direction's record on.
pub fn read_pdu(
    s: &[u8],
    words: &mut [u64],
    n: usize,
    c: Cursor,
    direction: u64,
    down: &[u8],
    up: &[u8],
) -> At
    requires { (length s.now ≤ 65536) × (n < 2 ^ 19) × (1 ≤ length down.now) × (length down.now ≤ 256) × (1 ≤ length up.now) × (length up.now ≤ 256) × (direction ≤ 1) × (c.why ≡ 0) }
    ensures { Runs 236124 (pdu_at direction down.now up.now s.now) s.now c n words.old words.new result }
{
    let m = emit(words, n, DIRECTION, 0, direction, 0, c.at);
    let extension = bits(s, c, 1);
    let d = extension.c;
    if extension.v != 0 {
        let e = mark(d, 2);
        return read_extension(s, words, m, e);
    }
    let width = index_bits(direction);
    let g = bits(s, d, width);
    let e = g.c;
    if e.why != 0 {
        return At { n: m, c: e };
    }
    let k = emit(words, m, PDU, 0, g.v, 0, d.at);
    alternative(s, words, k, e, direction, g.v, down, up)
}
