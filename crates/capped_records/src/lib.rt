// Records in lent words, however many: their number stays at 2^64 - 1 once it is there.
#![tactic(auto)]

ghost use Rattle.std.specs.Prelude.{[], ◌∷◌};
ghost use Rattle.atn.specs.Reading.{rec};
ghost use Rattle.capped_records.specs.Place.{Put};

use records::front::put_record;

// The words of a record.
const WORDS: usize = 5;

// One record outside elements, with n before it, and how many there are then. Without room for it the words stay and the record still counts.
pub fn emit(words: &mut [u64], n: usize, tag: u64, value: u64, second: u64, place: usize) -> usize
    ensures { Put words.old words.new n result (rec tag 0 value second place) }
{
    if n < words.len() / WORDS {
        let at = n * WORDS;
        put_record(&mut words[at..], tag, 0, value, second, place as u64);
    }
    n.saturating_add(1)
}
