// What the places of a book hold: the number of their entries, where one stands, and whether the calls can have left such places.
#![tactic(auto)]

ghost use Rattle.std.specs.Prelude.{◌≡◌, ◌+◌, ◌*◌, ◌≤◌, ◌<◌, cond, drop, length, position};
ghost use Rattle.std.proofs.Math.Option.{none, some};
ghost use Rattle.book_entries.specs.Entries.{entry_at};
ghost use Rattle.book_entries.specs.Book.{holds, named, numbered, before, fair, entries, clear, listed};

use book_entries::{Entries, Name, entry_at};

// How many places are in use.
pub fn count(book: &[u32]) -> usize
    ensures is { result ≡ length (entries book.now) }
    ensures few { result * 4 ≤ length book.now }
{
    Entries::of(book).count()
}

// The first place with this name.
pub fn find_name(book: &[u32], name: Name) -> Option<usize>
    ensures { result ≡ position (named name.text name.size) (entries book.now) }
{
    Entries::of(book).position(|e| e.is_named(name))
}

// The first place with this frame number.
pub fn find_number(book: &[u32], number: u32) -> Option<usize>
    ensures { result ≡ position (numbered number) (entries book.now) }
{
    Entries::of(book).position(|e| e.number == number)
}

// Whether the calls can have left these places.
pub fn sound(book: &[u32]) -> bool
    ensures { listed book.now ≡ cond result (some (entries book.now)) none }
{
    let n = count(book);
    for i in 0..n {
        if !is_fair(book, n, i) {
            return false;
        }
    }
    is_clear(&book[n * 4..])
}

// Whether the entry at place i is good, and those behind it have higher numbers and other names.
fn is_fair(book: &[u32], n: usize, i: usize) -> bool
    requires { (n ≡ length (entries book.now)) × (i < n) }
    ensures { result ≡ fair (entry_at book.now i) (entries (drop ((i + 1) * 4) book.now)) }
{
    let e = entry_at(book, i);
    if !e.is_good() {
        return false;
    }
    if !rises(book, n, i) {
        return false;
    }
    !has_name(book, n, i + 1, e.name())
}

// Whether the entry behind place i, if there is one, has a higher number.
fn rises(book: &[u32], n: usize, i: usize) -> bool
    requires { (n ≡ length (entries book.now)) × (i < n) }
    ensures { result ≡ before (entry_at book.now i) (entries (drop ((i + 1) * 4) book.now)) }
{
    if n <= i + 1 {
        return true;
    }
    entry_at(book, i).number < entry_at(book, i + 1).number
}

// Whether one of n places, from `first` on, has this name. By the places' numbers: an iterator asks of each whether it is in use, which is known, and a book is tested by each pair of its names.
fn has_name(book: &[u32], n: usize, first: usize, name: Name) -> bool
    requires { (n ≡ length (entries book.now)) × (first ≤ n) }
    ensures { result ≡ holds (named name.text name.size) (entries (drop (first * 4) book.now)) }
{
    for i in first..n {
        if entry_at(book, i).is_named(name) {
            return true;
        }
    }
    false
}

fn is_clear(words: &[u32]) -> bool
    ensures { result ≡ clear words.now }
{
    words.iter().all(|word| *word == 0)
}
