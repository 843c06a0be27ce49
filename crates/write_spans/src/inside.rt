// Whether spans lie inside the bytes that they point into.
ghost use Rattle.std.specs.Prelude.{◌≡◌, not, ◌||◌, ◌+◌, ◌*◌, ◌^◌, ◌≤◌, ◌<◌, length, get_or, leb};
ghost use Rattle.record_lists.specs.Items.{inside};
ghost use Rattle.record_lists.specs.Kinds.{span_tag};
ghost use Rattle.pens.specs.Rest.{rest};

use cm_tags::{ARS, LOC_SYS_NSEL_TSEL, RDP};
use cpdlc_tags::{AIRCRAFT_ADDRESS, INTEGRITY_CHECK};
use pens::Records;

// Whether records with this tag are spans.
pub fn is_span_tag(tag: u64) -> bool
    ensures { result ≡ span_tag tag }
{
    if tag == INTEGRITY_CHECK {
        return true;
    }
    if tag == AIRCRAFT_ADDRESS {
        return true;
    }
    if tag == RDP {
        return true;
    }
    if tag == ARS {
        return true;
    }
    tag == LOC_SYS_NSEL_TSEL
}

// Whether the slice has the n bits from `from` on. The octets before their end are counted, since their sum may wrap.
fn has_bits(src: &[u8], from: u64, n: u64) -> bool
    ensures { result ≡ leb (from + n) (length src.now * 8) }
{
    from / 8 + n / 8 + (from % 8 + n % 8 + 7) / 8 <= src.len() as u64
}

// Whether record i is no span, or one that lies inside.
fn is_inside(records: Records, i: usize, src: &[u8]) -> bool
    requires { i < records.len }
    ensures { result ≡ (not (span_tag (get_or records.entry.words.now (i * 5) 0)) || leb (get_or records.entry.words.now (i * 5 + 2) 0 + get_or records.entry.words.now (i * 5 + 3) 0) (length src.now * 8)) }
{
    let k = i * 5;
    let words = records.words;
    if is_span_tag(words[k]) {
        return has_bits(src, words[k + 2], words[k + 3]);
    }
    true
}

// Whether no span of the records goes past the slice.
pub fn spans_inside(records: Records, src: &[u8]) -> bool
    ensures { result ≡ inside span_tag (length src.now * 8) (rest records.entry.words.now records.entry.len 0) }
{
    for i in 0..records.len {
        if !is_inside(records, i, src) {
            return false;
        }
    }
    true
}
