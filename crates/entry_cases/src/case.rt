// A case: `ENTRY DIR DOWNTABLE UPTABLE FRAME ROOM`.
ghost use Rattle.std.specs.Prelude.{◌≤◌, length, IfSome};

use super::fields::{field, octets};
use decimal::number;
use entry_names::{Entry, has_direction, named};

// What the line says; how many words are lent.
#[derive(Clone, Copy)]
pub struct Case<'a> {
    pub entry: Entry,
    pub direction: u64,
    pub down: &'a [u8],
    pub up: &'a [u8],
    pub frame: &'a [u8],
    pub room: usize,
}

// The octets go to the front of `down`, `up` and `frame`; at most `most` words are lent. What an entry does not take is read all the same. None where the line is no case.
pub fn read<'a>(
    line: &[u8],
    down: &'a mut [u8],
    up: &'a mut [u8],
    frame: &'a mut [u8],
    most: usize,
) -> Option<Case<'a>>
    ensures down { IfSome result (λ c. length c.down.now ≤ length down.old) }
    ensures up { IfSome result (λ c. length c.up.now ≤ length up.old) }
    ensures frame { IfSome result (λ c. length c.frame.now ≤ length frame.old) }
    ensures room { IfSome result (λ c. c.room ≤ most) }
{
    let (name, rest) = field(line);
    let (way, rest) = field(rest?);
    let (downs, rest) = field(rest?);
    let (ups, rest) = field(rest?);
    let (octs, rest) = field(rest?);
    let (room, rest) = field(rest?);
    if rest.is_some() {
        return None;
    }
    let entry = named(name)?;
    let direction = direction(way, has_direction(Some(entry)))?;
    let room = number(room)? as usize;
    if most < room {
        return None;
    }
    Some(Case {
        entry,
        direction,
        down: octets(downs, down)?,
        up: octets(ups, up)?,
        frame: octets(octs, frame)?,
        room,
    })
}

// A number of 64 bits, or `-` where there need not be one.
fn direction(text: &[u8], needed: bool) -> Option<u64> {
    match text {
        b"-" if needed => None,
        b"-" => Some(0),
        _ => number(text),
    }
}
