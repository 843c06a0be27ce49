// Where the fields of records begin.
ghost use Rattle.std.specs.Prelude.{◌≡◌, ◌<◌};
ghost use Rattle.record_views.specs.View.{count, record_at, records_from};
ghost use Rattle.screen.specs.Placed.{place, begins, placed};

use record_views::{record_at, records_in};
use records::space::words_for;
use write_spans::inside::is_span_tag;

const LONGEST: u64 = 524288;

// The place of record i, its fifth word.
fn place_at(words: &[u64], i: usize) -> u64
    requires { i < count words.now }
    ensures { result ≡ place (record_at words.now i) }
{
    words[i * words_for(1) + 4]
}

// Whether record i, if it is a span, has its bits at its place or behind it.
fn is_begun(words: &[u64], i: usize, at: u64) -> bool
    requires { at ≡ place (record_at words.now i) }
    ensures { result ≡ begins (record_at words.now i) }
{
    let x = record_at(words, i);
    if is_span_tag(x.tag) {
        return at <= x.value;
    }
    true
}

// Whether the places never fall and stay within the longest frame, and no span begins before its field.
pub fn are_placed(words: &[u64]) -> bool
    ensures { result ≡ placed 0 (records_from 0 words.now) }
{
    let mut low = 0;
    for i in 0..records_in(words) {
        let next = place_at(words, i);
        if next < low {
            return false;
        }
        if !is_begun(words, i, next) {
            return false;
        }
        low = next;
    }
    low <= LONGEST
}
