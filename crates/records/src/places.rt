// The places of records that are told already, moved.
ghost use Rattle.std.specs.Prelude.{◌≡◌, ◌+◌, ◌-◌, ◌^◌, ◌<◌, min, length};
ghost use Rattle.records.specs.Space.{space};
ghost use Rattle.records.specs.Moves.{raised_places};

use super::WORDS;
use super::space::words_for;

// The place of the record whose words begin at the word `at`.
fn move_place(words: &mut [u64], at: usize, by: u64)
    requires { at + 4 < length words.old }
    ensures { words.new ≡ raised_places by 1 at words.old }
{
    words[at + 4] = std::num::wrapping_add_u64(by, words[at + 4]);
}

// The places of the records from n to m, as far as the words have room for them, are `by` further on.
pub fn move_places(words: &mut [u64], n: usize, m: usize, by: usize)
    requires { m < 2 ^ 32 }
    ensures { words.new ≡ raised_places by (m - n) (space n) words.old }
{
    if m <= n {
        return;
    }
    let more = by as u64;
    // behind the end of the words there is nothing to move
    let stop = words_for(m).min(words.len());
    let mut at = words_for(n);
    // eight with one test, of the eighth's place: a compiler writes out turns whose number is fixed
    while at + 39 < stop {
        for _ in 0..8usize {
            move_place(words, at, more);
            at += WORDS;
        }
    }
    while at + 4 < stop {
        move_place(words, at, more);
        at += WORDS;
    }
}
