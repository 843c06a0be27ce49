// Ranges of more characters and bits than any frame holds: a size that is there is read, and one that is not has run out. And a count of no bits, of which nothing is told.
use answers::Answer;
use listing::{Line, print_case};
use schema_reader::parse_by_table;

const MILLION: [u64; 4] = [2, 1, 0, 1048576];

// The sum of the fewest and of 64 bits may be 2^64, which is no word.
const WIDEST: [u64; 4] = [2, 1, 1, 18446744073709551615];

const BITS: [u64; 4] = [3, 1, 18446744073709551615, 0];

pub fn of_texts() {
    // three characters, ABC; the size alone, of 1048576; no size
    show(
        b"text of 0..1048576",
        &[0x00, 0x00, 0x1C, 0x18, 0x50, 0xC0],
        &MILLION,
    );
    show(b"text of 0..1048576", &[0x80, 0x00, 0x00], &MILLION);
    show(b"text of 0..1048576", &[], &MILLION);
    // two characters, AB; 2^64 characters; always 2^64 - 1, of which one is there
    show(
        b"text of 1..2^64-1",
        &[0x00, 0x00, 0x00, 0x00, 0x00, 0x00, 0x00, 0x01, 0x83, 0x08],
        &WIDEST,
    );
    show(b"text of 1..2^64-1", &[0xFF; 8], &WIDEST);
    show(
        b"text of 2^64-1",
        &[0x83],
        &[2, 1, 18446744073709551615, 18446744073709551615],
    );
}

pub fn of_bits() {
    show(b"1048576 bits", &[0x00], &[3, 1, 1048576, 0]);
    show(b"2^64-1 bits", &[0x00], &BITS);
    show(b"no bits", &[], &[3, 1, 0, 0]);
    show(b"no bits", &[0xFF], &[3, 1, 0, 0]);
}

pub fn lacked() {
    lacks(b"text of 0..1048576", &[], &MILLION);
    lacks(b"text of 1..2^64-1", &[0xFF; 8], &WIDEST);
    lacks(b"1048576 bits", &[0x00], &[3, 1, 1048576, 0]);
    lacks(b"2^64-1 bits", &[], &BITS);
}

fn show(name: &[u8], frame: &[u8], nodes: &[u64]) {
    let mut words = [0u64; 160];
    let answer = parse_by_table(frame, nodes, &mut words);
    print_case(name, frame, &words, answer);
}

// A line of the bits that the frame lacks.
fn lacks(name: &[u8], frame: &[u8], nodes: &[u64]) {
    let mut words = [0u64; 160];
    let answer = parse_by_table(frame, nodes, &mut words);
    let mut line = Line::new();
    line.put_text(name);
    line.put_text(b", bits lacked: ");
    line.put_decimal(bits_lacked(answer) as u64);
    line.write();
}

fn bits_lacked(answer: Answer) -> usize {
    match answer {
        Answer::Accepted {
            cut: _,
            reach: _,
            marks: _,
            count: _,
        } => 0,
        Answer::Refused {
            number: _,
            reach: _,
            need: _,
            lacked,
        } => lacked,
    }
}
