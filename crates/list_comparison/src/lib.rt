// A list of records from any source, five words each, held to the records of a reading.
#![tactic(auto)]

ghost use Rattle.std.specs.Prelude.{List, ◌≡◌, ◌+◌, ◌*◌, ◌≤◌, length, take};
ghost use Rattle.atn.specs.Entries.{flat};
ghost use Rattle.atn.specs.Reading.{Rec};
ghost use Rattle.list_comparison.specs.Compared.{compared};

// What is said of a list: it is the reading; or which of its records is the first that is not as in the reading, by its place from 1; or a refusal.
#[derive(Clone, Copy)]
pub enum Checked {
    Yes,
    Differs(usize),
    Missing(usize),
    TooMany(usize),
    Incomplete(usize),
    // a number, as in an entry's `Answer`, from which it comes
    Refused(u64),
}

// The words of a record.
const WORDS: usize = 5;

// The words of `count` records stand at the front of `words`.
pub fn compare(words: &[u64], count: usize, list: &[u64]) -> Checked
    requires { count * 5 ≤ length words.now }
    ensures { (R : List Rec) → take (count * 5) words.now ≡ flat R → result ≡ compared 1 R list.now }
{
    for i in 0..count {
        let at = i * WORDS;
        let left = list.len() - at;
        if left == 0 {
            return Checked::Missing(i + 1);
        }
        if left < WORDS {
            return Checked::Incomplete(i + 1);
        }
        if words[at..at + WORDS] != list[at..at + WORDS] {
            return Checked::Differs(i + 1);
        }
    }
    if count * WORDS < list.len() {
        return Checked::TooMany(count + 1);
    }
    Checked::Yes
}
