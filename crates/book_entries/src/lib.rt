// The entries of a name book: a place has four words.
#![tactic(auto)]

ghost use Rattle.std.specs.Prelude.{◌≡◌, ◌++◌, ◌+◌, ◌*◌, ◌^◌, ◌-◌, ◌≤◌, ◌<◌, length, take, drop};
ghost use Rattle.std.specs.Iterator.{YieldsFirst, item_count};
ghost use Rattle.book_entries.specs.Entries.{text as Entries·text, size, bytes, plain as Entries·plain, good, words, entry_at};
ghost use Rattle.book_entries.specs.Book.{named, entries};
ghost use Rattle.book_entries.specs.Left.{left};

// high and low are the name's characters, the first one highest and zeros behind the last; number is the frame's; shape is the number of characters, times 2^20 (five digits), and the frame's byte length.
#[derive(Clone, Copy)]
pub struct Entry {
    pub high: u32,
    pub low: u32,
    pub number: u32,
    pub shape: u32,
}

// The entry at place i.
pub fn entry_at(book: &[u32], i: usize) -> Entry
    requires { i * 4 + 3 < length book.now }
    ensures { result ≡ entry_at book.now i }
{
    let at = i * 4;
    Entry {
        high: book[at],
        low: book[at + 1],
        number: book[at + 2],
        shape: book[at + 3],
    }
}

pub fn put_entry(book: &mut [u32], i: usize, e: Entry)
    requires { i * 4 + 3 < length book.old }
    ensures { book.new ≡ take (i * 4) book.old ++ words e ++ drop (i * 4 + 4) book.old }
{
    let at = i * 4;
    book[at] = e.high;
    book[at + 1] = e.low;
    book[at + 2] = e.number;
    book[at + 3] = e.shape;
}

// A name: its characters as one number, the first one highest and zeros behind the last, and how many there are.
#[derive(Clone, Copy, PartialEq, Eq)]
pub struct Name {
    pub text: u64,
    pub size: u32,
}

impl Entry {
    // The name's characters as one number.
    pub fn text(self) -> u64
        ensures { result ≡ Entries·text self }
    {
        u64::from(self.high) * 4294967296 + u64::from(self.low)
    }

    // How many characters the name has.
    pub fn size(self) -> u32
        ensures { result ≡ size self }
    {
        self.shape / 1048576
    }

    // The frame's byte length.
    pub fn bytes(self) -> u32
        ensures { result ≡ bytes self }
    {
        self.shape % 1048576
    }

    pub fn name(self) -> Name
        ensures { (result.text ≡ Entries·text self) × (result.size ≡ size self) }
    {
        Name {
            text: self.text(),
            size: self.size(),
        }
    }

    pub fn is_named(self, name: Name) -> bool
        ensures { result ≡ named name.text name.size self }
    {
        self.name() == name
    }

    // Whether these calls can have left such an entry.
    pub fn is_good(self) -> bool
        ensures { result ≡ good self }
    {
        let size = self.size();
        if size < 2 {
            return false;
        }
        if 8 < size {
            return false;
        }
        if !plain(self.high) {
            return false;
        }
        if !plain(self.low) {
            return false;
        }
        self.text() % unit(size) == 0
    }
}

// The entries of a book's places, first to last, up to the first place that is not in use.
#[derive(Clone, Copy)]
pub struct Entries<'a> {
    places: &'a [u32],
}

impl<'a> Entries<'a> {
    pub fn of(places: &'a [u32]) -> Entries<'a>
        ensures held { left result ≡ entries places.now }
        ensures few { length (left result) * 4 ≤ length places.now }
    {
        Entries { places }
    }
}

impl<'a> Iterator for Entries<'a> {
    type Item = Entry;

    ghost next_gives = { YieldsFirst left };

    ghost remaining = { item_count left };

    fn next(&mut self) -> Option<Entry> {
        if self.places.len() < 4 || self.places[3] == 0 {
            return None;
        }
        let entry = entry_at(self.places, 0);
        self.places = &self.places[4..];
        Some(entry)
    }
}

// What the last of so many characters counts.
pub fn unit(size: u32) -> u64
    requires { (2 ≤ size) × (size ≤ 8) }
    ensures { result ≡ 256 ^ (8 - size) }
{
    match size {
        2 => 281474976710656,
        3 => 1099511627776,
        4 => 4294967296,
        5 => 16777216,
        6 => 65536,
        7 => 256,
        _ => 1,
    }
}

// Whether each of four characters is below 128.
fn plain(x: u32) -> bool
    ensures { result ≡ Entries·plain x }
{
    if 128 <= x % 256 {
        return false;
    }
    if 128 <= x / 256 % 256 {
        return false;
    }
    if 128 <= x / 65536 % 256 {
        return false;
    }
    x / 16777216 < 128
}
