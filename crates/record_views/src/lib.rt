// Lent words as records. What a record holds behind its second number is passed over.
#![tactic(auto)]

ghost use Rattle.std.specs.Prelude.{◌≡◌, ◌+◌, ◌<◌, length, get_or};
ghost use Rattle.atn.specs.Reading.{rec};
ghost use Rattle.record_views.specs.View.{count, whole, record_at, fetched};

use records::space::words_for;

// A record.
#[derive(Clone, Copy)]
pub struct Record {
    pub tag: u64,
    pub element: u64,
    pub value: u64,
    pub second: u64,
}

// How many records the words hold.
pub fn records_in(words: &[u64]) -> usize
    ensures { result ≡ count words.now }
{
    words.len() / words_for(1)
}

// Whether nothing is left over behind them.
pub fn are_whole(words: &[u64]) -> bool
    ensures { result ≡ whole words.now }
{
    words.len() % words_for(1) == 0
}

// Record i, zeros where there is none.
pub fn record_at(words: &[u64], i: usize) -> Record
    ensures { result ≡ fetched (record_at words.now i) }
{
    if i < records_in(words) {
        let at = i * words_for(1);
        return record_from(words, at);
    }
    Record {
        tag: 0,
        element: 0,
        value: 0,
        second: 0,
    }
}

// The record whose words stand from `at` on.
fn record_from(words: &[u64], at: usize) -> Record
    requires { at + 4 < length words.now }
    ensures { result ≡ fetched (rec (get_or words.now at 0) (get_or words.now (at + 1) 0) (get_or words.now (at + 2) 0) (get_or words.now (at + 3) 0) (get_or words.now (at + 4) 0)) }
{
    let tag = words[at];
    let element = words[at + 1];
    let value = words[at + 2];
    let second = words[at + 3];
    Record {
        tag,
        element,
        value,
        second,
    }
}
