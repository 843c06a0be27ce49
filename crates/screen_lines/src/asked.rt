// A line: `DOWN UP ROOM WORD..`, the phrases in hexadecimal, the bytes lent for the text and the words of the records in decimal.
ghost use Rattle.std.specs.Prelude.{◌≤◌, length, IfSome};

use decimal::number;
use entry_cases::fields::{field, octets};

// What the line asks; how many bytes are lent.
#[derive(Clone, Copy)]
pub struct Asked<'a> {
    pub down: &'a [u8],
    pub up: &'a [u8],
    pub words: &'a [u64],
    pub room: usize,
}

// The phrases go to the front of `down` and `up`, the words to that of `words`; at most `most` bytes are lent. None where the line asks nothing.
pub fn read<'a>(
    line: &[u8],
    down: &'a mut [u8],
    up: &'a mut [u8],
    words: &'a mut [u64],
    most: usize,
) -> Option<Asked<'a>>
    ensures down { IfSome result (λ a. length a.down.now ≤ length down.old) }
    ensures up { IfSome result (λ a. length a.up.now ≤ length up.old) }
    ensures words { IfSome result (λ a. length a.words.now ≤ length words.old) }
    ensures room { IfSome result (λ a. a.room ≤ most) }
{
    let (downs, rest) = field(line);
    let (ups, rest) = field(rest?);
    let (room, rest) = field(rest?);
    let room = number(room)? as usize;
    if most < room {
        return None;
    }
    Some(Asked {
        down: octets(downs, down)?,
        up: octets(ups, up)?,
        words: numbers(rest.unwrap_or(&[]), words)?,
        room,
    })
}

// The numbers of a text, if all are numbers and have room.
fn numbers<'a>(text: &[u8], words: &'a mut [u64]) -> Option<&'a [u64]>
    ensures { IfSome result (λ w. length w.now ≤ length words.old) }
{
    let mut rest = text;
    let mut count = 0;
    // no index is counted, and a space at the end makes no further word, as `split` would
    while !rest.is_empty() {
        let (word, behind) = field(rest);
        if count == words.len() {
            return None;
        }
        words[count] = number(word)?;
        count += 1;
        rest = behind.unwrap_or(&[]);
    }
    Some(&words[..count])
}
