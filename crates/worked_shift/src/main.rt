// A shift of two stations that share a book with room for two names. A line is the station, its calibration number, the bits that arrived, the capture and the answer.
// The file `stdout` is written by hand from documents 01 and 02.
#![tactic(auto)]

mod turns; // turns.rt: a call with its line
mod ends; // ends.rt: what is held and counted at the end

use counted_books::empty_book;
use station::begin;
use turns::turn;

fn main() {
    shared();
    spoiled();
}

fn shared() {
    // forward messages with these names and a reach of 91 bits: 0 100, date and time, 000, two characters of seven bits, the address, 0, and an inner string of four bits
    let aa = [
        0x43u8, 0xCA, 0xA0, 0xAD, 0x08, 0x83, 0x06, 0xAA, 0xAA, 0xA8, 0x08, 0x00,
    ];
    let ab = [
        0x43u8, 0xCA, 0xA0, 0xAD, 0x08, 0x83, 0x0A, 0xAA, 0xAA, 0xA8, 0x08, 0x00,
    ];
    let ac = [
        0x43u8, 0xCA, 0xA0, 0xAD, 0x08, 0x83, 0x0E, 0xAA, 0xAA, 0xA8, 0x08, 0x00,
    ];
    let mut book = [7u32; 10];
    empty_book(&mut book);
    ends::free(&book);
    let mut one = begin();
    let mut two = begin();
    one = turn(one, &mut book, 1, 7, 91, b"AA", &aa);
    two = turn(two, &mut book, 2, 8, 96, b"AA", &aa);
    two = turn(two, &mut book, 2, 8, 90, b"AB", &ab);
    two = turn(two, &mut book, 2, 8, 97, b"AB", &ab);
    two = turn(two, &mut book, 2, 8, 80, b"AB, ten bytes", &ab[..10]);
    two = turn(two, &mut book, 2, 8, 8, b"70, no such message", &[0x70]);
    two = turn(two, &mut book, 2, 8, 8, b"50, a forward response", &[0x50]);
    one = turn(one, &mut book, 1, 7, 96, b"AB", &ab);
    one = turn(one, &mut book, 1, 9, 96, b"AB", &ab);
    two = turn(two, &mut book, 2, 8, 96, b"AC", &ac);
    ends::free(&book);
    ends::held(&book, b"AA", 0x4141000000000000);
    ends::held(&book, b"AB", 0x4142000000000000);
    ends::held(&book, b"AC", 0x4143000000000000);
    ends::counts(1, one);
    ends::counts(2, two);
}

// No call leaves such words, or such a number of free places.
fn spoiled() {
    let aa = [
        0x43u8, 0xCA, 0xA0, 0xAD, 0x08, 0x83, 0x06, 0xAA, 0xAA, 0xA8, 0x08, 0x00,
    ];
    let mut book = [1u32; 10];
    turn(begin(), &mut book, 1, 7, 96, b"AA", &aa);
    let mut miscounted = [0u32; 10];
    miscounted[1] = 3;
    turn(
        begin(),
        &mut miscounted,
        1,
        7,
        96,
        b"AA, two places called three",
        &aa,
    );
}
