// A book saved as lines: name, frame number and frame length in upper-case hexadecimal, by rising frame number.
#![tactic(auto)]

ghost use Rattle.std.specs.Prelude.{◌≡◌, true, ◌≤◌, length};
ghost use Rattle.book_entries.specs.Book.{entries, orderly};
ghost use Rattle.book_lines.specs.Lines.{saved, put};
ghost use Rattle.name_book.specs.Calls.{Leaves};
ghost use Rattle.saved_books.specs.Saves.{number, need, settled, save as Saves·save};

use book_entries::Entries;
use book_lines::{name_digits, put_line};
use counted_books::sound_book;

// Why nothing is saved.
#[derive(Clone, Copy, PartialEq, Eq)]
pub enum Refusal {
    NotABook,
    TooFewBytes { need: usize },
}

impl Refusal {
    // Its number in docs/REFUSALS.md.
    pub fn number(self) -> u64
        ensures { result ≡ number self }
    {
        match self {
            Refusal::NotABook => 18,
            Refusal::TooFewBytes { need: _ } => 9,
        }
    }

    // The bytes needed, where too few are lent; else 0.
    pub fn need(self) -> usize
        ensures { result ≡ need self }
    {
        match self {
            Refusal::TooFewBytes { need } => need,
            Refusal::NotABook => 0,
        }
    }
}

// How many bytes were written.
pub fn save(book: &[u32], out: &mut [u8]) -> Result<usize, Refusal>
    ensures { Leaves result out.new (Saves·save book.now out.old) }
{
    if !sound_book(book) {
        return Err(Refusal::NotABook);
    }
    save_at(&book[2..], out)
}

// The places of a sound book, saved.
fn save_at(places: &[u32], out: &mut [u8]) -> Result<usize, Refusal>
    requires { orderly (entries places.now) ≡ true }
    ensures { Leaves result out.new (settled (saved (entries places.now)) out.old) }
{
    let need = bytes_needed(places);
    if out.len() < need {
        return Err(Refusal::TooFewBytes { need });
    }
    put_lines(places, out);
    Ok(need)
}

// How many bytes the lines of the entries have.
fn bytes_needed(places: &[u32]) -> usize
    requires { orderly (entries places.now) ≡ true }
    ensures { result ≡ length (saved (entries places.now)) }
{
    let mut need = 0;
    for e in Entries::of(places) {
        need += name_digits(e) + 14;
    }
    need
}

// The lines of the entries from the first byte on; the bytes behind them stay.
fn put_lines(places: &[u32], out: &mut [u8])
    requires { (orderly (entries places.now) ≡ true) × (length (saved (entries places.now)) ≤ length out.old) }
    ensures { out.new ≡ put 0 (saved (entries places.now)) out.old }
{
    let mut at = 0;
    for e in Entries::of(places) {
        put_line(out, at, e);
        at += name_digits(e) + 14;
    }
}
