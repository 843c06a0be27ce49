// The records of named places, published ones and procedures, put into the lent words behind the first n. A text is in the frame s.
#![tactic(auto)]

ghost use Rattle.std.specs.Prelude.{◌<◌, ◌^◌};
ghost use Rattle.character_strings.specs.Texts.{text_recs};
ghost use Rattle.records.specs.Told.{Told};
ghost use Rattle.angles.specs.Angles.{if_there};
ghost use Rattle.named_places.specs.Names.{Held, HeldIfThere, named_recs, published_recs, procedure_recs};

use character_strings::Text;
use cpdlc_tags::{PUBLISHED, PUBLISHED_FIX, PUBLISHED_NAVAID};
use named_places::{Named, Procedure, Published, PublishedKind};
use records::emit;
use tell::tell_text;
use tell_angles::tell_maybe_pair;

pub fn tell_named(words: &mut [u64], n: usize, element: u64, tag: u64, s: &[u8], x: Named) -> usize
    requires { (n < 2 ^ 29) × Held s.now x.name }
    ensures { Told 75 words.old words.new n result (named_recs tag s.now x element) }
{
    let m = tell_text(words, n, tag, element, s, x.name);
    tell_maybe_pair(words, m, element, x.place)
}

pub fn tell_published(words: &mut [u64], n: usize, element: u64, s: &[u8], x: Published) -> usize
    requires { (n < 2 ^ 28) × Held s.now x.named.name }
    ensures { Told 76 words.old words.new n result (published_recs s.now x element) }
{
    match x.kind {
        PublishedKind::Fix => {
            let m = emit(words, n, PUBLISHED, element, 0, 0, x.at);
            tell_named(words, m, element, PUBLISHED_FIX, s, x.named)
        }
        PublishedKind::Navaid => {
            let m = emit(words, n, PUBLISHED, element, 1, 0, x.at);
            tell_named(words, m, element, PUBLISHED_NAVAID, s, x.named)
        }
    }
}

fn tell_maybe_text(
    words: &mut [u64],
    n: usize,
    element: u64,
    tag: u64,
    s: &[u8],
    x: Option<Text>,
) -> usize
    requires { (n < 2 ^ 31) × HeldIfThere s.now x }
    ensures { Told 64 words.old words.new n result (if_there (λ y. text_recs tag element s.now y) x) }
{
    match x {
        None => n,
        Some(text) => tell_text(words, n, tag, element, s, text),
    }
}

// By the tags of the kind, the name and the transition.
pub fn tell_procedure(
    words: &mut [u64],
    n: usize,
    element: u64,
    kind: u64,
    name: u64,
    transition: u64,
    s: &[u8],
    x: Procedure,
) -> usize
    requires { (n < 2 ^ 30) × Held s.now x.name × HeldIfThere s.now x.transition }
    ensures { Told 129 words.old words.new n result (procedure_recs kind name transition s.now x element) }
{
    let a = emit(words, n, kind, element, x.kind, 0, x.at);
    let b = tell_text(words, a, name, element, s, x.name);
    tell_maybe_text(words, b, element, transition, s, x.transition)
}
