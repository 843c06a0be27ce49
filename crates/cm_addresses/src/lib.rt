// Octets that are told by where they stand, and the transport address that is made of them.
#![tactic(auto)]

ghost use Rattle.std.specs.Prelude.{List, ℕ, ◌<◌, ◌^◌};
ghost use Rattle.atn.specs.Messages.{octet_span, long_tsap};
ghost use Rattle.atn.specs.Tags.{ars, loc_sys_nsel_tsel};
ghost use Rattle.cursor.specs.Place.{Takes};
ghost use Rattle.cursor.specs.Formats.{Maybe};
ghost use Rattle.told_fields.specs.Does.{Does};
ghost use Rattle.cm_addresses.specs.Addresses.{Octets as Spanned, short_tsap};

use character_strings::size;
use cursor::place::presence;
use field_ranges::table::SELECTOR_SIZE;
use length_determinants::pass;
use per::units::Octets;
use records::emit;
use runs::At;

// So many octets of a field that starts at `from`, passed over; none are not told.
fn octets(words: &mut [u64], at: At, from: usize, size: Octets, tag: u64) -> At
    requires { (at.n < 2 ^ 20) × (size.0 < 512) }
    ensures { (s : List ℕ) → Does 1 0 (Spanned tag from size.0 s) at result words.old words.new }
{
    let c = at.c;
    let first = c.at;
    let bits = size.bits();
    let d = pass(c, bits);
    if bits.0 == 0 {
        return At { n: at.n, c: d };
    }
    let n = emit(words, at.n, tag, 0, first as u64, bits.0 as u64, from);
    At { n: n, c: d }
}

fn maybe_ars(words: &mut [u64], at: At, has: u64) -> At
    requires { at.n < 2 ^ 20 }
    ensures { (s : List ℕ) → Does 1 0 (Maybe has (octet_span ars 3 3) s) at result words.old words.new }
{
    if has == 0 {
        return at;
    }
    octets(words, at, at.c.at, Octets(3), cm_tags::ARS)
}

fn selectors(words: &mut [u64], at: At, s: &[u8]) -> At
    requires { at.n < 2 ^ 20 }
    ensures { Does 1 0 (Takes (octet_span loc_sys_nsel_tsel 10 11) s.now) at result words.old words.new }
{
    let g = size(s, at.c, SELECTOR_SIZE);
    let c = g.c;
    let behind = At { n: at.n, c: c };
    octets(
        words,
        behind,
        at.c.at,
        Octets(g.v as usize),
        cm_tags::LOC_SYS_NSEL_TSEL,
    )
}

fn short_tsap(words: &mut [u64], at: At, s: &[u8]) -> At
    requires { at.n < 2 ^ 19 }
    ensures { Does 2 0 (Takes short_tsap s.now) at result words.old words.new }
{
    let p = presence(s, at.c, 1);
    let c = p.c;
    let behind = At { n: at.n, c: c };
    let ars = maybe_ars(words, behind, p.v % 2);
    selectors(words, ars, s)
}

pub fn long_tsap(words: &mut [u64], at: At, s: &[u8]) -> At
    requires { at.n < 2 ^ 18 }
    ensures { Does 3 0 (Takes long_tsap s.now) at result words.old words.new }
{
    let rdp = octets(words, at, at.c.at, Octets(5), cm_tags::RDP);
    short_tsap(words, rdp, s)
}
