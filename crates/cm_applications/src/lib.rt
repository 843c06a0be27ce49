// Lists of applications, with their addresses or without.
#![tactic(auto)]

ghost use Rattle.std.specs.Prelude.{[], ◌∷◌, ◌<◌, ◌^◌};
ghost use Rattle.atn.specs.Reading.{rec};
ghost use Rattle.atn.specs.Tags.{ae_qualifier, ap_version};
ghost use Rattle.cursor.specs.Place.{Takes};
ghost use Rattle.cursor.specs.Formats.{Maybe};
ghost use Rattle.records.specs.Told.{Told};
ghost use Rattle.told_fields.specs.Does.{Does, InPlace};
ghost use Rattle.cm_applications.specs.Applications.{entry_of, list_of};

use character_strings::size;
use field_ranges::table::{AE_QUALIFIER, AP_VERSION, APPLICATIONS};
use ranged_numbers::ranged;
use records::space::words_for;
use records::store;
use runs::At;
use told_fields::numbers::refuse;

// The records of an entry: its place in the list, and its two numbers, which start at `at` and at `next`. Room for the three is asked for once.
fn tell_entry(
    words: &mut [u64],
    n: usize,
    tag: u64,
    place: u64,
    qualifier: u64,
    at: usize,
    version: u64,
    next: usize,
) -> usize
    requires { n < 2 ^ 31 }
    ensures { Told 3 words.old words.new n result (rec tag 0 place 0 at ∷ rec ae_qualifier 0 qualifier 0 at ∷ rec ap_version 0 version 0 next ∷ []) }
{
    if words.len() < words_for(n + 3) {
        return n + 3;
    }
    let a = store(words, n, tag, 0, place, 0, at);
    let b = store(words, a, cm_tags::AE_QUALIFIER, 0, qualifier, 0, at);
    store(words, b, cm_tags::AP_VERSION, 0, version, 0, next)
}

// An entry, by its place in the list. There is no reader for its address.
fn entry(words: &mut [u64], at: At, s: &[u8], addressed: bool, tag: u64, place: u64) -> At
    requires { at.n < 2 ^ 19 }
    ensures { Does 3 0 (InPlace (entry_of addressed tag) place s.now) at result words.old words.new }
{
    let qualifier = ranged(s, at.c, AE_QUALIFIER);
    let version = ranged(s, qualifier.c, AP_VERSION);
    let c = version.c;
    let n = tell_entry(
        words,
        at.n,
        tag,
        place,
        qualifier.v,
        at.c.at,
        version.v,
        qualifier.c.at,
    );
    let behind = At { n: n, c: c };
    if addressed {
        return refuse(behind, 6, 0);
    }
    behind
}

pub fn entries(words: &mut [u64], at: At, s: &[u8], addressed: bool, tag: u64) -> At
    requires { at.n < 2 ^ 18 }
    ensures { Does 1536 0 (Takes (list_of addressed tag) s.now) at result words.old words.new }
{
    let g = size(s, at.c, APPLICATIONS);
    let count = g.v;
    let c = g.c;
    let mut z = At { n: at.n, c: c };
    for i in 0..count {
        z = entry(words, z, s, addressed, tag, i + 1);
        if z.c.why != 0 {
            return z;
        }
    }
    z
}

pub fn maybe_entries(words: &mut [u64], at: At, s: &[u8], has: u64, addressed: bool, tag: u64) -> At
    requires { at.n < 2 ^ 18 }
    ensures { Does 1536 0 (Maybe has (list_of addressed tag) s.now) at result words.old words.new }
{
    if has == 0 {
        return at;
    }
    entries(words, at, s, addressed, tag)
}
