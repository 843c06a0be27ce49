// The octets of a word as characters.
ghost use Rattle.std.specs.Prelude.{◌≡◌};
ghost use Rattle.record_grammar.specs.Octets.{rule_number, within, spaced_one, octet_fits, octet_or, characters_fit};

// The octets of a word.
const OCTETS: u64 = 8;

// Which characters may stand: IA5; a raw from 0 to 15 or from 0 to 10 as the source has it; X.680's for the octets of another word.
#[derive(Clone, Copy)]
pub enum Rule {
    Ia5,
    Channel,
    Digits,
    Spaced,
}

// Whether v is one of `size` numbers from `low` on.
#[tactic(auto, unfolding(crate::specs::Octets::within))]
pub fn is_within(low: u64, size: u64, v: u64) -> bool
    ensures { result ≡ within low size v }
{
    low <= v && v - low < size
}

#[tactic(auto, unfolding(crate::specs::Octets::spaced_one))]
fn spaced_one(a: u64) -> u64
    ensures { result ≡ spaced_one a }
{
    if a == 48 {
        return 32;
    }
    a.saturating_sub(1)
}

#[tactic(auto, unfolding(crate::specs::Octets::octet_fits))]
fn octet_fits(rule: Option<Rule>, a: u64, b: u64) -> bool
    ensures { result ≡ octet_fits (rule_number rule) a b }
{
    match rule {
        Some(Rule::Ia5) => b < 128,
        Some(Rule::Channel) => is_within(48, 16, b),
        Some(Rule::Digits) => is_within(48, 11, b),
        Some(Rule::Spaced) => b == spaced_one(a),
        None => false,
    }
}

#[tactic(auto, unfolding(crate::specs::Octets::octet_or))]
fn octet_or(rule: Option<Rule>, spare: u64, a: u64, b: u64) -> bool
    ensures { result ≡ octet_or (rule_number rule) spare a b }
{
    if spare == 0 {
        return octet_fits(rule, a, b);
    }
    b == 0
}

// Whether v begins with n characters, at most 8, and has no more. Without a rule no character fits.
pub fn characters_fit(rule: Option<Rule>, n: u64, u: u64, v: u64) -> bool
    ensures { result ≡ characters_fit (rule_number rule) n u v }
{
    let mut spare = OCTETS.saturating_sub(n);
    let mut a = u;
    let mut b = v;
    for _ in 0..OCTETS {
        if !octet_or(rule, spare, a % 256, b % 256) {
            return false;
        }
        spare = spare.saturating_sub(1);
        a /= 256;
        b /= 256;
    }
    true
}
