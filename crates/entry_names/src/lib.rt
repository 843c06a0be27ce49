// The four entries by name.
#![tactic(auto)]

ghost use Rattle.std.specs.Prelude.{◌≡◌};
ghost use Rattle.entry_names.specs.Names.{Names, is_directed};

#[derive(Clone, Copy)]
pub enum Entry {
    Apdu,
    Pdus,
    Cm,
    Acse,
}

pub fn named(name: &[u8]) -> Option<Entry>
    ensures { Names name.now result }
{
    match name {
        b"apdu" => Some(Entry::Apdu),
        b"pdus" => Some(Entry::Pdus),
        b"cm" => Some(Entry::Cm),
        b"acse" => Some(Entry::Acse),
        _ => None,
    }
}

// Whether a case has to name a direction; what names no entry has none.
pub fn has_direction(e: Option<Entry>) -> bool
    ensures { result ≡ is_directed e }
{
    matches!(e, Some(Entry::Pdus | Entry::Cm))
}
