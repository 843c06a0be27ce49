// Records in lent words, one after another from the front. What is told goes through here.
#![tactic(auto)]

ghost use Rattle.std.specs.Prelude.{◌+◌, ◌^◌, ◌<◌, ◌≤◌, [], ◌∷◌, length};
ghost use Rattle.atn.specs.Reading.{rec};
ghost use Rattle.records.specs.Space.{space};
ghost use Rattle.records.specs.Told.{Told};

pub mod front; // front.rt: a record at the front of what is lent
pub mod places; // places.rt: the places of records that are told already, moved
pub mod space; // space.rt: how many words records take

// The words of a record.
const WORDS: usize = 5;

// One record, with n before it, where there is room for it, and how many there are then.
pub fn store(
    words: &mut [u64],
    n: usize,
    tag: u64,
    element: u64,
    value: u64,
    second: u64,
    place: usize,
) -> usize
    requires { (n < 2 ^ 32) × (space (n + 1) ≤ length words.old) }
    ensures { Told 1 words.old words.new n result (rec tag element value second place ∷ []) }
{
    let at = space::words_for(n);
    front::put_record(&mut words[at..], tag, element, value, second, place as u64);
    n + 1
}

// One record, with n before it, and how many there are then. Without room for it the words stay and the
// record still counts: so a reading that is lent no words tells how many it would write.
pub fn emit(
    words: &mut [u64],
    n: usize,
    tag: u64,
    element: u64,
    value: u64,
    second: u64,
    place: usize,
) -> usize
    requires { n < 2 ^ 32 }
    ensures { Told 1 words.old words.new n result (rec tag element value second place ∷ []) }
{
    if space::words_for(n) + WORDS <= words.len() {
        return store(words, n, tag, element, value, second, place);
    }
    n + 1
}
