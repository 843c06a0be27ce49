// Named places, published ones, and procedures: texts by their places in the frame, with what may follow them.
#![tactic(auto)]

ghost use Rattle.character_strings.specs.Texts.{SizeRow};
ghost use Rattle.named_places.specs.Names.{NamedPlaces, PublishedPlaces, Procedures};

use angles::{Pair, read_maybe_latlon};
use character_strings::{Text, ia5};
use cursor::place::{Cursor, Got, bits, presence};
use field_ranges::table::{
    FIX_SIZE, NAVAID_SIZE, PROCEDURE, PROCEDURE_SIZE, Range, TRANSITION_SIZE,
};

#[derive(Clone, Copy)]
pub struct Named {
    pub name: Text,
    pub place: Option<Pair>,
}

#[derive(Clone, Copy)]
pub enum PublishedKind {
    Fix,
    Navaid,
}

#[derive(Clone, Copy)]
pub struct Published {
    pub kind: PublishedKind,
    pub at: usize,
    pub named: Named,
}

#[derive(Clone, Copy)]
pub struct Procedure {
    pub kind: u64,
    pub at: usize,
    pub name: Text,
    pub transition: Option<Text>,
}

// A name whose size is of the range, and its coordinates, which may be absent.
pub fn read_named(s: &[u8], c: Cursor, sizes: Range) -> Got<Named>
    requires { SizeRow sizes }
    ensures { NamedPlaces sizes.row s.now c result }
{
    let flags = presence(s, c, 1);
    let name = ia5(s, flags.c, sizes);
    let place = read_maybe_latlon(s, name.c, flags.v % 2);
    Got {
        v: Named {
            name: name.v,
            place: place.v,
        },
        c: place.c,
    }
}

pub fn read_published(s: &[u8], c: Cursor) -> Got<Published>
    ensures { PublishedPlaces s.now c result }
{
    let index = bits(s, c, 1);
    if index.v == 0 {
        let fix = read_named(s, index.c, FIX_SIZE);
        return Got {
            v: Published {
                kind: PublishedKind::Fix,
                at: c.at,
                named: fix.v,
            },
            c: fix.c,
        };
    }
    let navaid = read_named(s, index.c, NAVAID_SIZE);
    Got {
        v: Published {
            kind: PublishedKind::Navaid,
            at: c.at,
            named: navaid.v,
        },
        c: navaid.c,
    }
}

// A procedure's kind, its name, and its transition, which may be absent.
pub fn read_procedure(s: &[u8], c: Cursor) -> Got<Procedure>
    ensures { Procedures s.now c result }
{
    let flags = presence(s, c, 1);
    let kind = ranged_numbers::named(s, flags.c, PROCEDURE);
    let name = ia5(s, kind.c, PROCEDURE_SIZE);
    let procedure = Procedure {
        kind: kind.v,
        at: flags.c.at,
        name: name.v,
        transition: None,
    };
    if flags.v % 2 == 0 {
        return Got {
            v: procedure,
            c: name.c,
        };
    }
    let transition = ia5(s, name.c, TRANSITION_SIZE);
    Got {
        v: Procedure {
            transition: Some(transition.v),
            ..procedure
        },
        c: transition.c,
    }
}
