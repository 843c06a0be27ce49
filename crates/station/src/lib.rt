// The programmer station: binds the name in a capture to a calibration number, its frame number in the day's name book.
#![tactic(auto)]

ghost use Rattle.std.specs.Prelude.{◌≡◌, ◌*◌, nat_le};
ghost use Rattle.name_book.specs.Calls.{Leaves};
ghost use Rattle.station.specs.Offers.{call, offer as Offers·offer, answered as Offers·answered};
ghost use Rattle.station.specs.Shifts.{none_yet, next as Shifts·next, counted as Shifts·counted, offer_counted};

use forward_names::forward_name;
use name_book::{Added, Refusal, add_entry};
use named_entries::entry_of;
use std::num::wrapping_add_u64;

// Repeated: the calibration number that has the name. Refused: the number of the refusal, the bits that the reading took, 0 where nothing was read, and behind 4 the bits lacked.
#[derive(Clone, Copy)]
pub enum Offered {
    Bound,
    Repeated {
        number: u32,
    },
    Refused {
        number: u64,
        reach: usize,
        lacked: usize,
    },
}

// What a station has counted.
#[derive(Clone, Copy)]
pub struct Shift {
    pub offered: u64,
    pub bound: u64,
    pub repeated: u64,
    pub refused: u64,
}

// A call's answer, and the shift that has counted it.
#[derive(Clone, Copy)]
pub struct Outcome {
    pub answer: Offered,
    pub shift: Shift,
}

// Offers a capture of which so many bits arrived, in a shift. None is offered without being counted.
pub fn offer(
    shift: Shift,
    capture: &[u8],
    arrived: usize,
    number: u32,
    down: &[u8],
    up: &[u8],
    book: &mut [u32],
) -> Outcome
    ensures { Leaves result book.new (offer_counted shift (call capture.now arrived number down.now up.now) book.old) }
{
    let answer = bind(capture, arrived, number, down, up, book);
    let after = counted(shift, answer);
    Outcome {
        answer: answer,
        shift: after,
    }
}

// Binds the name in the capture to the number, where nothing stands against it.
fn bind(
    capture: &[u8],
    arrived: usize,
    number: u32,
    down: &[u8],
    up: &[u8],
    book: &mut [u32],
) -> Offered
    ensures { Leaves result book.new (Offers·offer (call capture.now arrived number down.now up.now) book.old) }
{
    if !holds_bits(capture.len(), arrived) {
        return refused(21, 0, 0);
    }
    let name = forward_name(capture, down, up);
    if name.number != 0 {
        return refused(name.number, name.reach, name.lacked);
    }
    if arrived < name.reach {
        return refused(22, name.reach, 0);
    }
    let added = add_entry(book, entry_of(name, number, capture.len()));
    answered(added, name.reach)
}

// Whether so many bytes hold so many bits; eight times the bytes need not fit a word.
fn holds_bits(bytes: usize, bits: usize) -> bool
    ensures { result ≡ nat_le bits (bytes * 8) }
{
    if bits / 8 < bytes {
        return true;
    }
    if bits % 8 != 0 {
        return false;
    }
    bits / 8 == bytes
}

// The book's answer as the station's.
fn answered(added: Result<Added, Refusal>, reach: usize) -> Offered
    ensures { result ≡ Offers·answered reach added }
{
    match added {
        Ok(Added::New) => Offered::Bound,
        Ok(Added::Repeated { number }) => Offered::Repeated { number },
        Ok(Added::NoName) => refused(19, reach, 0),
        Err(refusal) => refused(refusal.number(), reach, 0),
    }
}

fn refused(number: u64, reach: usize, lacked: usize) -> Offered
    ensures { result ≡ Offered.Refused number reach lacked }
{
    Offered::Refused {
        number: number,
        reach: reach,
        lacked: lacked,
    }
}

// A shift begins.
pub fn begin() -> Shift
    ensures { result ≡ none_yet }
{
    Shift {
        offered: 0,
        bound: 0,
        repeated: 0,
        refused: 0,
    }
}

// Counts one call by its answer. Behind 2^64 - 1 a number begins anew.
fn counted(shift: Shift, answer: Offered) -> Shift
    ensures { result ≡ Shifts·counted shift answer }
{
    let mut s = shift;
    s.offered = next(s.offered);
    match answer {
        Offered::Bound => {
            s.bound = next(s.bound);
        }
        Offered::Repeated { number: _ } => {
            s.repeated = next(s.repeated);
        }
        Offered::Refused {
            number: _,
            reach: _,
            lacked: _,
        } => {
            s.refused = next(s.refused);
        }
    }
    s
}

fn next(n: u64) -> u64
    ensures { result ≡ Shifts·next n }
{
    wrapping_add_u64(n, 1)
}
