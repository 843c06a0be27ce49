// The header of a forward message. It is read as a value, so that nothing of it is told where the body ends early.
#![tactic(auto)]

ghost use Rattle.std.specs.Prelude.{◌<◌, ◌^◌};
ghost use Rattle.character_strings.specs.Texts.{InFrame};
ghost use Rattle.forward_headers.specs.Headers.{Headers, header_recs};
ghost use Rattle.records.specs.Told.{Told};

use character_strings::{Text, ia5};
use cpdlc_tags::{AIRCRAFT_ADDRESS, AIRCRAFT_ID};
use cursor::place::{Cursor, Got};
use date_times::{DateTime, read_date_time, tell_date_time};
use field_ranges::table::FLIGHT_SIZE;
use length_determinants::pass;
use per::units::Bits;
use records::emit;
use tell::tell_text;

// The time, the aircraft's identifier, and the first of the 24 bits of its address.
#[derive(Clone, Copy)]
pub struct Header {
    pub time: DateTime,
    pub name: Text,
    pub address: usize,
}

pub fn read_header(s: &[u8], c: Cursor) -> Got<Header>
    ensures { Headers s.now c result }
{
    let t = read_date_time(s, c);
    let id = ia5(s, t.c, FLIGHT_SIZE);
    Got {
        v: Header {
            time: t.v,
            name: id.v,
            address: id.c.at,
        },
        c: pass(id.c, Bits(24)),
    }
}

pub fn tell_header(words: &mut [u64], n: usize, s: &[u8], x: Header) -> usize
    requires { (n < 2 ^ 30) × (x.name.len < 512) × InFrame 7 s.now x.name }
    ensures { Told 71 words.old words.new n result (header_recs s.now x 0) }
{
    let a = tell_date_time(words, n, x.time);
    let b = tell_text(words, a, AIRCRAFT_ID, 0, s, x.name);
    emit(
        words,
        b,
        AIRCRAFT_ADDRESS,
        0,
        x.address as u64,
        24,
        x.address,
    )
}
