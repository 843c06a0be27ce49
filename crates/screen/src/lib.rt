// Text for the operator's screen: the lines of a reading's elements, from its records alone.
#![tactic(auto)]

ghost use Rattle.std.specs.Prelude.{◌≡◌};
ghost use Rattle.screen.specs.Screen.{number, need, small, given, screen_lines};

use element_kinds::elements_agree;
use record_grammar::hearing::are_formed;
use screen_text::{have_phrases, put_lines};

mod places; // places.rt: where fields begin

// No reading gives these records with a phrase for each element; or too few bytes are lent for the text.
#[derive(Clone, Copy)]
pub enum Refusal {
    NotGiven,
    TooFewBytes { need: usize },
}

impl Refusal {
    // Its number in docs/REFUSALS.md.
    pub fn number(self) -> u64
        ensures { result ≡ number self }
    {
        match self {
            Refusal::NotGiven => 13,
            Refusal::TooFewBytes { .. } => 14,
        }
    }

    // The bytes needed, where too few are lent; else 0.
    pub fn need(self) -> usize
        ensures { result ≡ need self }
    {
        match self {
            Refusal::TooFewBytes { need } => need,
            Refusal::NotGiven => 0,
        }
    }
}

// Answers how many bytes were written. `words` is the whole list of records; `down` and `up` are the phrases of the aircraft's and the ground's elements, one a line.
pub fn screen_lines(words: &[u64], down: &[u8], up: &[u8], out: &mut [u8]) -> Result<usize, Refusal>
    ensures { (result, out.new) ≡ screen_lines words.now down.now up.now out.old }
{
    if !are_given(words, down, up) {
        return Err(Refusal::NotGiven);
    }
    // lent no bytes, so that a refusal leaves them
    let need = put_lines(words, down, up, &mut out[..0]);
    if out.len() < need {
        return Err(Refusal::TooFewBytes { need });
    }
    put_lines(words, down, up, out);
    Ok(need)
}

// Whether a reading gives these records, and each element has a phrase.
#[tactic(auto, unfolding(crate::specs::Screen::given))]
fn are_given(words: &[u64], down: &[u8], up: &[u8]) -> bool
    ensures { result ≡ given words.now down.now up.now }
{
    are_small(words, down, up)
        && are_formed(words)
        && places::are_placed(words)
        && elements_agree(words)
        && have_phrases(words, down, up)
}

// Lengths of which no sum wraps.
#[tactic(auto, unfolding(crate::specs::Screen::small))]
fn are_small(words: &[u64], down: &[u8], up: &[u8]) -> bool
    ensures { result ≡ small words.now down.now up.now }
{
    words.len() < 1099511627776 && down.len() < 17592186044416 && up.len() < 17592186044416
}
