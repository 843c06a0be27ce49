// Records in lent words, and the texts that they hold.
#![tactic(auto)]

ghost use Rattle.std.specs.Prelude.{◌≡◌, ◌^◌, ◌≤◌, ◌<◌};
ghost use Rattle.record_views.specs.View.{records_from};
ghost use Rattle.screen_bytes.specs.Put.{Put};
ghost use Rattle.screen_records.specs.Fields.{tag, value, second, text_length, text_records, character as Fields·character, text};

use record_views::record_at;
use screen_bytes::put_byte;

// The tag of the record k places behind record i.
pub fn tag_at(words: &[u64], i: usize, k: usize) -> u64
    requires { (i < 2 ^ 62) × (k < 2 ^ 62) }
    ensures { result ≡ tag (records_from i words.now) k }
{
    let x = record_at(words, i + k);
    x.tag
}

pub fn value_at(words: &[u64], i: usize, k: usize) -> u64
    requires { (i < 2 ^ 62) × (k < 2 ^ 62) }
    ensures { result ≡ value (records_from i words.now) k }
{
    let x = record_at(words, i + k);
    x.value
}

pub fn second_at(words: &[u64], i: usize) -> u64
    ensures { result ≡ second (records_from i words.now) 0 }
{
    let x = record_at(words, i);
    x.second
}

// The length of the text whose first record is record i.
fn text_length(words: &[u64], i: usize) -> usize
    ensures { (result ≡ text_length (records_from i words.now)) × (result ≤ 32) }
{
    let n = second_at(words, i);
    if n < 32 {
        return n as usize;
    }
    32
}

// How many records it has.
pub fn text_records(words: &[u64], i: usize) -> usize
    ensures { (result ≡ text_records (records_from i words.now)) × (result ≤ 4) }
{
    (text_length(words, i) + 7) / 8
}

fn character(words: &[u64], i: usize, j: usize) -> u8
    requires { (i < 2 ^ 62) × (j < 32) }
    ensures { result ≡ Fields·character (records_from i words.now) j }
{
    ((value_at(words, i, j / 8) >> (56 - j % 8 * 8)) % 256) as u8
}

// The text.
pub fn put_record_text(out: &mut [u8], at: usize, words: &[u64], i: usize) -> usize
    requires { (at < 2 ^ 62) × (i < 2 ^ 62) }
    ensures { Put 32 out.old out.new at result (text (records_from i words.now)) }
{
    let n = text_length(words, i);
    let mut m = at;
    for j in 0..n {
        m = put_byte(out, m, character(words, i, j));
    }
    m
}
