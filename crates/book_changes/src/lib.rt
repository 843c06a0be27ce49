// Changes of the places of a book.
#![tactic(auto)]

ghost use Rattle.std.specs.Prelude.{◌≡◌, ◌++◌, ◌+◌, ◌*◌, ◌≤◌, ◌<◌, length, take, drop, replicate};
ghost use Rattle.book_entries.specs.Entries.{words, entry_at};
ghost use Rattle.book_entries.specs.Book.{picture, entries};
ghost use Rattle.book_changes.specs.Changes.{lower, higher, vacant};
ghost use Rattle.book_changes.specs.Changes.{insert as Changes·insert};

use book_entries::{Entry, entry_at, put_entry};
use book_search::count;

// No place is in use.
pub fn empty(book: &mut [u32])
    ensures { book.new ≡ replicate (length book.old) 0 }
{
    book.fill(0);
}

// An entry more; the words behind it stay.
pub fn insert(book: &mut [u32], e: Entry)
    requires { length (entries book.old) * 4 + 4 ≤ length book.old }
    ensures { book.new ≡ picture (Changes·insert e (entries book.old)) ++ drop ((length (entries book.old) + 1) * 4) book.old }
{
    let n = count(book);
    let mut carried = e;
    for i in 0..n {
        carried = pass(book, i, carried);
    }
    put_entry(book, n, carried);
}

// Of e and the entry at place i the one with the lower number stays there, and the other is returned.
fn pass(book: &mut [u32], i: usize, e: Entry) -> Entry
    requires { i * 4 + 3 < length book.old }
    ensures { (result ≡ higher e (entry_at book.old i)) × (book.new ≡ take (i * 4) book.old ++ words (lower e (entry_at book.old i)) ++ drop (i * 4 + 4) book.old) }
{
    let f = entry_at(book, i);
    if e.number < f.number {
        put_entry(book, i, e);
        return f;
    }
    e
}

// The entry at place p goes, and those behind it move up.
pub fn remove(book: &mut [u32], p: usize)
    requires { p < length (entries book.old) }
    ensures { book.new ≡ take (p * 4) book.old ++ picture (entries (drop ((p + 1) * 4) book.old)) ++ words vacant ++ drop (length (entries book.old) * 4) book.old }
{
    let n = count(book);
    book.copy_within((p + 1) * 4..n * 4, p * 4);
    let nothing = Entry {
        high: 0,
        low: 0,
        number: 0,
        shape: 0,
    };
    put_entry(book, n - 1, nothing);
}
