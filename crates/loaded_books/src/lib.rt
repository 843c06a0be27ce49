// A saved book loaded, in place of what was held.
#![tactic(auto)]

ghost use Rattle.std.specs.Prelude.{◌≡◌, not, List, [], ◌≤◌, length, replicate};
ghost use Rattle.std.proofs.Math.Option.{some};
ghost use Rattle.book_entries.specs.declared.Entry.{Entry as Specs-as-Entry};
ghost use Rattle.book_entries.specs.Book.{holds, laid, entries, listed};
ghost use Rattle.book_lines.specs.Lines.{lines};
ghost use Rattle.book_text.specs.Cuts.{collected, left};
ghost use Rattle.name_book.specs.Calls.{Leaves, changed};
ghost use Rattle.loaded_books.specs.Loads.{number, meets, distinct, gathered, replaced, load as Loads·load, Counts, Fit};

use book_changes::{empty, insert};
use book_entries::Entry;
use book_text::Lines;
use counted_books::{recount, sound_book};

// Why a call leaves the book as it was.
#[derive(Clone, Copy, PartialEq, Eq)]
pub enum Refusal {
    NotABook,
    NotASavedBook,
    BookFull,
}

impl Refusal {
    // Its number in docs/REFUSALS.md.
    pub fn number(self) -> u64
        ensures { result ≡ number self }
    {
        match self {
            Refusal::NotABook => 18,
            Refusal::NotASavedBook => 23,
            Refusal::BookFull => 10,
        }
    }
}

// How many names are held now.
pub fn load(book: &mut [u32], saved: &[u8]) -> Result<usize, Refusal>
    ensures { Leaves result book.new (Loads·load book.old saved.now) }
{
    if !sound_book(book) {
        return Err(Refusal::NotABook);
    }
    let loaded = load_at(&mut book[2..], saved);
    recount(book);
    loaded
}

// A saved book loaded into the places of a sound one.
fn load_at(places: &mut [u32], saved: &[u8]) -> Result<usize, Refusal>
    requires { listed places.old ≡ some (entries places.old) }
    ensures { Leaves result places.new (changed places.old (λ n. replaced n (lines [] saved.now))) }
{
    let Some(names) = count_lines(saved) else {
        return Err(Refusal::NotASavedBook);
    };
    if twice(saved) {
        return Err(Refusal::NotASavedBook);
    }
    if places.len() / 4 < names {
        return Err(Refusal::BookFull);
    }
    empty(places);
    put_all(places, saved);
    Ok(names)
}

// How many lines there are, if all are good.
fn count_lines(saved: &[u8]) -> Option<usize>
    ensures { Counts saved.now result }
{
    let mut count = 0;
    for line in Lines::of(saved) {
        line?;
        count += 1;
    }
    Some(count)
}

// Whether a good saved book has a name or a number twice.
fn twice(saved: &[u8]) -> bool
    ensures { (L : List Specs-as-Entry) → lines [] saved.now ≡ some L → result ≡ not (distinct L) }
{
    let mut later = Lines::of(saved);
    // no `for`: those behind a line are looked at in its turn
    while let Some(line) = later.next() {
        let Some(e) = line else {
            return false;
        };
        if meets_later(later, e) {
            return true;
        }
    }
    false
}

// Whether one of the later lines, which are good, has the name or the number of e.
fn meets_later(later: Lines, e: Entry) -> bool
    ensures { (L : List Specs-as-Entry) → collected (left later.entry) ≡ some L → result ≡ holds (meets e) L }
{
    for line in later {
        let Some(f) = line else {
            return false;
        };
        if do_meet(e, f) {
            return true;
        }
    }
    false
}

// Whether two entries have one number or one name.
fn do_meet(e: Entry, f: Entry) -> bool
    ensures { result ≡ meets e f }
{
    f.number == e.number || f.is_named(e.name())
}

// Each line of a good saved book goes into emptied places.
fn put_all(places: &mut [u32], saved: &[u8])
    requires { (places.old ≡ replicate (length places.old) 0) × Fit saved.now places.old }
    ensures { (L : List Specs-as-Entry) → lines [] saved.now ≡ some L → places.new ≡ laid (length places.old) (gathered [] L) }
{
    for line in Lines::of(saved) {
        let Some(e) = line else {
            return;
        };
        insert(places, e);
    }
}
