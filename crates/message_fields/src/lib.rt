// Numbers of the header that are read and, if the reading goes on, told at once.
#![tactic(auto)]

ghost use Rattle.std.specs.Prelude.{◌<◌, ◌^◌};
ghost use Rattle.field_ranges.specs.Ranges.{Listed};
ghost use Rattle.message_fields.specs.Fields.{number_field, maybe_number_field, date_time_field, acknowledgment_field};
ghost use Rattle.runs.specs.Runs.{Runs};

use cpdlc_tags::LOGICAL_ACK;
use date_times::{read_date_time, tell_date_time};
use field_ranges::table::{Range, SIDE};
use ranged_numbers::ranged;
use records::emit;
use runs::At;

// A number of the range under its tag.
pub fn number_field(s: &[u8], words: &mut [u64], x: At, range: Range, tag: u64) -> At
    requires { Listed range × (x.n < 2 ^ 32) }
    ensures { Runs 1 (number_field range.row tag s.now) s.now x.c x.n words.old words.new result }
{
    let n = x.n;
    let at = x.c.at;
    let g = ranged(s, x.c, range);
    let d = g.c;
    if d.why != 0 {
        return At { n: n, c: d };
    }
    let m = emit(words, n, tag, 0, g.v, 0, at);
    At { n: m, c: d }
}

// The same, if it is there.
pub fn maybe_number_field(
    s: &[u8],
    words: &mut [u64],
    x: At,
    has: u64,
    range: Range,
    tag: u64,
) -> At
    requires { Listed range × (x.n < 2 ^ 32) }
    ensures { Runs 1 (maybe_number_field has range.row tag s.now) s.now x.c x.n words.old words.new result }
{
    if has == 0 {
        return x;
    }
    number_field(s, words, x, range, tag)
}

pub fn date_time_field(s: &[u8], words: &mut [u64], x: At) -> At
    requires { x.n < 2 ^ 31 }
    ensures { Runs 6 (date_time_field s.now) s.now x.c x.n words.old words.new result }
{
    let n = x.n;
    let g = read_date_time(s, x.c);
    let d = g.c;
    if d.why != 0 {
        return At { n: n, c: d };
    }
    let m = tell_date_time(words, n, g.v);
    At { n: m, c: d }
}

// A logical acknowledgment; where it is not there, 1 is told.
pub fn acknowledgment_field(s: &[u8], words: &mut [u64], x: At, has: u64) -> At
    requires { x.n < 2 ^ 32 }
    ensures { Runs 1 (acknowledgment_field has s.now) s.now x.c x.n words.old words.new result }
{
    let n = x.n;
    let d = x.c;
    if has == 0 {
        if d.why != 0 {
            return x;
        }
        let m = emit(words, n, LOGICAL_ACK, 0, 1, 0, d.at);
        return At { n: m, c: d };
    }
    number_field(s, words, x, SIDE, LOGICAL_ACK)
}
