// Whether a list of records is the clean reading of a frame. The frame is read into words of the checker's own, so that it takes no room.
#![tactic(auto)]

ghost use Rattle.std.specs.Prelude.{◌≡◌};
ghost use Rattle.list_checker.specs.Checks.{check_list};
ghost use Rattle.list_checker.specs.Judged.{Fits, Judges, is_full};

use answers::Answer;
use entries::{Entry, read};
use list_comparison::{Checked, compare};

pub mod entries; // entries.rt: the entries, and the call of one

// The words that most messages need, and those that are enough for every clean one: 8,324 records.
const FEW: usize = 240;

const ENOUGH: usize = 41_620;

pub fn check_list(frame: &[u8], entry: Entry, down: &[u8], up: &[u8], list: &[u64]) -> Checked
    ensures { result ≡ check_list frame.now entry down.now up.now list.now }
{
    let mut words = [0u64; FEW];
    let answer = read(frame, entry, down, up, &mut words);
    if is_full(answer) {
        return check_long(frame, entry, down, up, list);
    }
    judge(answer, &words, list)
}

// With words enough for every clean message.
fn check_long(frame: &[u8], entry: Entry, down: &[u8], up: &[u8], list: &[u64]) -> Checked
    ensures { result ≡ check_list frame.now entry down.now up.now list.now }
{
    let mut words = [0u64; ENOUGH];
    let answer = read(frame, entry, down, up, &mut words);
    judge(answer, &words, list)
}

fn is_full(answer: Answer) -> bool
    ensures { result ≡ is_full answer }
{
    match answer {
        Answer::Accepted {
            cut: _,
            reach: _,
            marks: _,
            count: _,
        } => false,
        Answer::Refused {
            number,
            reach: _,
            need: _,
            lacked: _,
        } => number == 7,
    }
}

// What is said of the list where an entry answered so, with the records at the front of the words. An answer 7 is of a reading that is not clean.
fn judge(answer: Answer, words: &[u64], list: &[u64]) -> Checked
    requires { Fits answer words.now }
    ensures { Judges answer words.now list.now result }
{
    match answer {
        Answer::Accepted {
            cut,
            reach: _,
            marks,
            count,
        } => {
            if cut {
                return Checked::Refused(19);
            }
            if marks != 0 {
                return Checked::Refused(19);
            }
            compare(words, count, list)
        }
        Answer::Refused {
            number,
            reach: _,
            need: _,
            lacked: _,
        } => {
            if number <= 3 {
                return Checked::Refused(number);
            }
            Checked::Refused(19)
        }
    }
}
