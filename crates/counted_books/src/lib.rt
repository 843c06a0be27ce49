// A book with the number of its free places in front, in two words: its test, emptying, and the number set and read.
#![tactic(auto)]

ghost use Rattle.std.specs.Prelude.{◌≡◌, cond, ◌+◌, ◌*◌, ◌/◌, ◌-◌, ◌≤◌, length, drop};
ghost use Rattle.std.proofs.Math.Option.{none, some};
ghost use Rattle.book_entries.specs.Book.{entries};
ghost use Rattle.counted_books.specs.Counted.{number, left, held, recounted, emptied, free};

use book_changes::empty;
use book_search::{count, sound};

// Why the free places of a slice are not told.
#[derive(Clone, Copy, PartialEq, Eq)]
pub enum Refusal {
    NotABook,
}

impl Refusal {
    // Its number in docs/REFUSALS.md.
    pub fn number(self) -> u64
        ensures { result ≡ number self }
    {
        match self {
            Refusal::NotABook => 18,
        }
    }
}

// How many names the book still takes, by the number that is kept. The places are not looked at, so that a wrong number is told where the slice has room for so many names.
pub fn free_places(book: &[u32]) -> Result<u64, Refusal>
    ensures { result ≡ free book.now }
{
    if book.len() < 2 {
        return Err(Refusal::NotABook);
    }
    let count = joined(book[0], book[1]);
    if count <= ((book.len() - 2) / 4) as u64 {
        return Ok(count);
    }
    Err(Refusal::NotABook)
}

// "One call empties any slice."
pub fn empty_book(book: &mut [u32])
    ensures { book.new ≡ emptied (length book.old) }
{
    empty(book);
    if book.len() < 2 {
        return;
    }
    recount(book);
}

// Whether the calls can have left these words.
pub fn sound_book(book: &[u32]) -> bool
    ensures { held book.now ≡ cond result (some (entries (drop 2 book.now))) none }
{
    if book.len() < 2 {
        return false;
    }
    let k = left_in(&book[2..]);
    if u64::from(book[0]) != k / 4294967296 {
        return false;
    }
    if u64::from(book[1]) != k % 4294967296 {
        return false;
    }
    sound(&book[2..])
}

// The number in front is set to that of the places that are free.
pub fn recount(book: &mut [u32])
    requires { 2 ≤ length book.old }
    ensures { book.new ≡ recounted book.old }
{
    let k = left_in(&book[2..]);
    book[0] = (k / 4294967296) as u32;
    book[1] = (k % 4294967296) as u32;
}

// How many places are free.
fn left_in(places: &[u32]) -> u64
    ensures { result ≡ left places.now }
{
    (places.len() / 4 - count(places)) as u64
}

// A number of two words.
fn joined(high: u32, low: u32) -> u64
    ensures { result ≡ high * 4294967296 + low }
{
    u64::from(high) * 4294967296 + u64::from(low)
}
