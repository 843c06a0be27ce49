// The tables that are refused, before the frame is read.
use super::tables::{SEVENTEEN, SIXTEEN};
use listing::print_case;
use schema_reader::parse_by_table;

fn try_table(name: &[u8], nodes: &[u64]) {
    let mut words = [0u64; 160];
    let answer = parse_by_table(&[], nodes, &mut words);
    print_case(name, &[], &words, answer);
}

pub fn kinds() {
    try_table(b"kind 13", &[13, 0, 0, 0]);
    try_table(b"number 5..4", &[0, 1, 5, 4]);
    try_table(
        b"number -1..-2",
        &[0, 1, 18446744073709551615, 18446744073709551614],
    );
    try_table(
        b"number -2..-1",
        &[0, 1, 18446744073709551614, 18446744073709551615],
    );
    try_table(b"text of 3..2", &[2, 1, 3, 2]);
    try_table(b"choice of none", &[5, 1, 1, 0]);
    try_table(b"five words", &[8, 0, 0, 0, 8]);
    try_table(b"kind 13 behind the root", &[8, 0, 0, 0, 13, 0, 0, 0]);
}

pub fn numbers() {
    try_table(b"no node", &[]);
    try_table(b"itself", &[12, 0, 0, 0]);
    try_table(b"a lower one", &[12, 1, 0, 0, 12, 0, 0, 0]);
    try_table(b"out of the table", &[12, 1, 0, 0]);
    try_table(b"members out of the table", &[4, 1, 2, 0, 8, 0, 0, 0]);
    try_table(
        b"members far out",
        &[4, 1, 18446744073709551615, 0, 8, 0, 0, 0],
    );
    try_table(b"no members", &[4, 9, 0, 0]);
}

pub fn depths() {
    let sixteen = SIXTEEN;
    try_table(b"depth 16", &sixteen);
    let seventeen = SEVENTEEN;
    try_table(b"depth 17", &seventeen);
}

// 1 before 17 before 15 before 16.
pub fn in_order() {
    let frame = [0u8; 65537];
    let mut words = [0u64; 160];
    let answer = parse_by_table(&frame, &[13, 0, 0, 0], &mut words);
    print_case(
        b"kind 13, 65537 bytes that begin with",
        &frame[..1],
        &words,
        answer,
    );
    try_table(b"itself, and kind 13", &[12, 0, 0, 0, 13, 0, 0, 0]);
    let mut nodes = SEVENTEEN;
    nodes[65] = 9;
    nodes[64] = 12;
    try_table(b"depth 17, and a lower one", &nodes);
}
