// A saved book, line by line.
#![tactic(auto)]

ghost use Rattle.std.specs.Prelude.{◌≡◌, ◌==◌, ◌≤◌, [], length, position};
ghost use Rattle.std.specs.Iterator.{YieldsFirstBy, item_count};
ghost use Rattle.line_reader.specs.Reads.{found};
ghost use Rattle.book_text.specs.Cuts.{cut, left};

use book_entries::Entry;
use line_reader::read_line;

// The lines of a saved book, each as its entry; None for one that is not good.
#[derive(Clone, Copy)]
pub struct Lines<'a> {
    text: &'a [u8],
}

impl<'a> Lines<'a> {
    pub fn of(text: &'a [u8]) -> Lines<'a>
        ensures held { left result ≡ cut [] text.now }
        ensures few { length (left result) ≤ length text.now }
    {
        Lines { text }
    }
}

impl<'a> Iterator for Lines<'a> {
    type Item = Option<Entry>;

    ghost next_gives = { YieldsFirstBy found left };

    ghost remaining = { item_count left };

    fn next(&mut self) -> Option<Option<Entry>> {
        if self.text.is_empty() {
            return None;
        }
        let Some(end) = find_feed(self.text) else {
            self.text = &self.text[..0];
            return Some(None);
        };
        let entry = read_line(&self.text[..end]);
        self.text = &self.text[end + 1..];
        Some(entry)
    }
}

// The first line feed.
fn find_feed(text: &[u8]) -> Option<usize>
    ensures { result ≡ position (λ c. c == 10) text.now }
{
    text.iter().position(|c| *c == b'\n')
}
