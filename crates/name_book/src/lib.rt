// The day's name book: which frame had which aircraft identifier first. It lies in lent words: the number of free places, and four words to an entry.
#![tactic(auto)]

ghost use Rattle.std.specs.Prelude.{◌≡◌};
ghost use Rattle.std.proofs.Math.Option.{some};
ghost use Rattle.book_entries.specs.Book.{entries, listed};
ghost use Rattle.name_book.specs.Calls.{number as Calls·number, Leaves, changed, offer, add, take_out, withdraw as Calls·withdraw, find, look_up};

use book_changes::{insert, remove};
use book_entries::{Entry, Name, entry_at};
use book_search::{count, find_name, find_number};
use counted_books::{recount, sound_book};

// Why a call leaves the book as it was.
#[derive(Clone, Copy, PartialEq, Eq)]
pub enum Refusal {
    NotABook,
    NumberHeld,
    NoSuchFrame,
    BookFull,
}

impl Refusal {
    // Its number in docs/REFUSALS.md.
    pub fn number(self) -> u64
        ensures { result ≡ Calls·number self }
    {
        match self {
            Refusal::NotABook => 18,
            Refusal::NumberHeld => 12,
            Refusal::NoSuchFrame => 11,
            Refusal::BookFull => 10,
        }
    }
}

// Repeated: the number of the frame that had the name first.
#[derive(Clone, Copy)]
pub enum Added {
    New,
    Repeated { number: u32 },
    NoName,
}

// The number and the byte length of a frame that has a name.
#[derive(Clone, Copy)]
pub struct Frame {
    pub number: u32,
    pub bytes: u32,
}

// Offers an entry. One that is not good has no name.
pub fn add_entry(book: &mut [u32], e: Entry) -> Result<Added, Refusal>
    ensures { Leaves result book.new (add book.old e) }
{
    if !sound_book(book) {
        return Err(Refusal::NotABook);
    }
    let added = add_at(&mut book[2..], e);
    recount(book);
    added
}

pub fn withdraw(book: &mut [u32], number: u32) -> Result<(), Refusal>
    ensures { Leaves result book.new (Calls·withdraw book.old number) }
{
    if !sound_book(book) {
        return Err(Refusal::NotABook);
    }
    let withdrawn = withdraw_at(&mut book[2..], number);
    recount(book);
    withdrawn
}

// Looks a name up: its characters, the first one highest and zeros behind the last, and how many there are.
pub fn look_up(book: &[u32], name: u64, size: u32) -> Result<Option<Frame>, Refusal>
    ensures { result ≡ look_up book.now name size }
{
    if !sound_book(book) {
        return Err(Refusal::NotABook);
    }
    Ok(look_at(&book[2..], Name { text: name, size }))
}

// An entry offered to the places of a sound book.
fn add_at(places: &mut [u32], e: Entry) -> Result<Added, Refusal>
    requires { listed places.old ≡ some (entries places.old) }
    ensures { Leaves result places.new (changed places.old (λ n. offer n e)) }
{
    if find_number(places, e.number).is_some() {
        return Err(Refusal::NumberHeld);
    }
    if !e.is_good() {
        return Ok(Added::NoName);
    }
    if let Some(p) = find_name(places, e.name()) {
        let f = entry_at(places, p);
        return Ok(Added::Repeated { number: f.number });
    }
    let n = count(places);
    if places.len() / 4 <= n {
        return Err(Refusal::BookFull);
    }
    insert(places, e);
    Ok(Added::New)
}

// A frame number withdrawn from them.
fn withdraw_at(places: &mut [u32], number: u32) -> Result<(), Refusal>
    requires { listed places.old ≡ some (entries places.old) }
    ensures { Leaves result places.new (changed places.old (λ n. take_out number)) }
{
    let Some(p) = find_number(places, number) else {
        return Err(Refusal::NoSuchFrame);
    };
    remove(places, p);
    Ok(())
}

// A name looked up in them.
fn look_at(places: &[u32], name: Name) -> Option<Frame>
    ensures { result ≡ find name.text name.size (entries places.now) }
{
    let p = find_name(places, name)?;
    let e = entry_at(places, p);
    Some(Frame {
        number: e.number,
        bytes: e.bytes(),
    })
}
