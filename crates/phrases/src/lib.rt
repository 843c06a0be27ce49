// Phrases: the lines of a lent table, and the brackets of a phrase.
#![tactic(auto)]

ghost use Rattle.std.specs.Prelude.{◌≡◌, ◌==◌, ◌^◌, ◌<◌, length, position};
ghost use Rattle.std.specs.Option.{option_copied};
ghost use Rattle.screen_bytes.specs.Put.{Put};
ghost use Rattle.phrases.specs.Phrases.{phrase_of, line_of};
ghost use Rattle.phrases.specs.Found.{Placed, Bracketed};

use screen_bytes::put_text;

// The first bracket of a phrase: where it opens, the phrase's length where none does; and where it closes, if it does.
#[derive(Clone, Copy)]
pub struct Bracket {
    pub opens: usize,
    pub closes: Option<usize>,
}

// The place of the first c in a text.
fn first(text: &[u8], c: u8) -> Option<usize>
    ensures { result ≡ position (λ b. b == c) text.now }
{
    text.iter().position(|b| *b == c)
}

// The same, and the text's length where there is none.
pub fn place(text: &[u8], c: u8) -> usize
    ensures { Placed c text.now result }
{
    first(text, c).unwrap_or(text.len())
}

// The phrase of an index: a line of the table, if there is one.
pub fn phrase_of(table: &[u8], index: u64) -> Option<&[u8]>
    ensures { option_copied result ≡ phrase_of table.now index }
{
    let mut rest = table;
    for _ in 0..index {
        let end = place(rest, b'\n');
        if rest.len() <= end {
            return None;
        }
        rest = &rest[end + 1..];
    }
    if rest.is_empty() {
        return None;
    }
    let end = place(rest, b'\n');
    Some(&rest[..end])
}

// A line of a table, and nothing where there is none.
pub fn put_line(out: &mut [u8], at: usize, table: &[u8], index: u64) -> usize
    requires { (at < 2 ^ 61) × (length table.now < 2 ^ 61) }
    ensures { Put (length table.now) out.old out.new at result (line_of table.now index) }
{
    match phrase_of(table, index) {
        Some(phrase) => put_text(out, at, phrase),
        None => at,
    }
}

pub fn first_bracket(phrase: &[u8]) -> Bracket
    ensures { Bracketed phrase.now result }
{
    let opens = place(phrase, b'[');
    let closes = opens + place(&phrase[opens..], b']');
    if phrase.len() <= closes {
        return Bracket {
            opens,
            closes: None,
        };
    }
    Bracket {
        opens,
        closes: Some(closes),
    }
}
