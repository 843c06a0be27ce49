// The frames.
use super::tables::{PROCEDURE, SHOP};
use listing::print_case;
use schema_reader::parse_by_table;

fn by_shop(frame: &[u8]) {
    let nodes = SHOP;
    let mut words = [0u64; 160];
    let answer = parse_by_table(frame, &nodes, &mut words);
    print_case(b"shop", frame, &words, answer);
}

pub fn of_the_shop() {
    // nothing that may be absent; the number 7000, the bits 1010, the name 2
    by_shop(&[0x37, 0x29, 0x42]);
    // all of it: -60, the text AB, the part that is not read, the bits 0000, a set extension bit
    by_shop(&[0xC0, 0x00, 0xC1, 0x84, 0x10]);
    // the number 7001, the name 1
    by_shop(&[0x37, 0x2A, 0x01]);
    // the name 3, which is none
    by_shop(&[0x00, 0x00, 0x03]);
    // the alternative without a reader, the one that is not listed, and one that is not there
    by_shop(&[0x00, 0x00, 0x04]);
    by_shop(&[0x00, 0x00, 0x08]);
    by_shop(&[0x00, 0x00, 0x0C]);
    // a text of four characters whose last is not there
    by_shop(&[0x80, 0x01, 0xC1, 0x84, 0x20]);
    // no presence bits; no number behind them
    by_shop(&[]);
    by_shop(&[0xC0]);
}

pub fn of_the_procedure() {
    let nodes = PROCEDURE;
    let mut words = [0u64; 160];
    let frame = [0x40u8, 0x82];
    let answer = parse_by_table(&frame, &nodes, &mut words);
    print_case(b"procedure", &frame, &words, answer);
    let unnamed = [0x60u8];
    let refused = parse_by_table(&unnamed, &nodes, &mut words);
    print_case(b"procedure", &unnamed, &words, refused);
}

// Nineteen words are lent for four records, and twenty.
pub fn without_room() {
    in_nineteen(&[0x37, 0x29, 0x42]);
    in_twenty(&[0x37, 0x29, 0x42]);
}

fn in_nineteen(frame: &[u8]) {
    let nodes = SHOP;
    let mut words = [0u64; 160];
    let answer = parse_by_table(frame, &nodes, &mut words[..19]);
    print_case(b"shop, nineteen words,", frame, &words, answer);
}

fn in_twenty(frame: &[u8]) {
    let nodes = SHOP;
    let mut words = [0u64; 160];
    let answer = parse_by_table(frame, &nodes, &mut words[..20]);
    print_case(b"shop, twenty words,", frame, &words, answer);
}
