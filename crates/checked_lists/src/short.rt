// Document 01's WILCO frame, which has eleven records, and what is refused.
use super::line::print;
use cpdlc::parse_pdus;
use list_checker::check_list;
use list_checker::entries::Entry;

const WILCO: [u8; 10] = [0x64, 0xD0, 0x30, 0xF2, 0xA8, 0x2B, 0x42, 0x00, 0x00, 0x00];

const SHORT: [u8; 9] = [0x64, 0xD0, 0x30, 0xF2, 0xA8, 0x2B, 0x42, 0x00, 0x00];

fn records() -> [u64; 64] {
    let mut words = [0u64; 64];
    parse_pdus(&WILCO, 0, &[0; 128], &[0; 256], &mut words);
    words
}

fn check(what: &[u8], words: &[u64; 64], n: usize) {
    first(what, &WILCO, Entry::Pdus(0), &[0; 128], words, n);
}

// The first n words of the list.
fn first(what: &[u8], frame: &[u8], entry: Entry, down: &[u8], words: &[u64], n: usize) {
    if n <= words.len() {
        let said = check_list(frame, entry, down, &[0; 256], &words[..n]);
        print(what, said);
    }
}

pub fn lists() {
    let words = records();
    check(b"all eleven", &words, 55);
    check(b"no record", &words, 0);
    check(b"one word", &words, 1);
    check(b"ten", &words, 50);
    check(b"ten and four words", &words, 54);
    check(b"eleven and a word", &words, 56);
    check(b"twelve", &words, 60);
}

pub fn changed() {
    let mut words = records();
    words[51] = 2;
    check(b"another element number in the eleventh", &words, 55);
    check(b"the same, and a word", &words, 56);
    words[3] = 1;
    check(b"a second number in the first", &words, 55);
}

// The place of a field is held to the reading too: that of the second record, the message's index, is behind the extension bit.
pub fn placed() {
    let mut words = records();
    words[54] = 0;
    check(b"another place in the eleventh", &words, 55);
    words[9] = 0;
    check(b"another place in the second", &words, 55);
}

// All eleven records.
fn by(what: &[u8], frame: &[u8], entry: Entry, down: &[u8], words: &[u64; 64]) {
    first(what, frame, entry, down, words, 55);
}

pub fn other_entries() {
    let words = records();
    by(
        b"of either direction",
        &WILCO,
        Entry::Apdu,
        &[0; 128],
        &words,
    );
    by(b"as an uplink", &WILCO, Entry::Pdus(1), &[0; 128], &words);
    by(b"as association control", &WILCO, Entry::Acse, &[], &words);
}

pub fn refusals() {
    let words = records();
    by(b"a byte too long", &[0; 65537], Entry::Pdus(2), &[], &words);
    by(b"an empty table", &WILCO, Entry::Pdus(2), &[], &words);
    by(b"direction 2", &WILCO, Entry::Pdus(2), &[0; 128], &words);
    by(
        b"direction 2 of context management",
        &WILCO,
        Entry::Cm(2),
        &[],
        &words,
    );
    by(b"a byte cut off", &SHORT, Entry::Pdus(0), &[0; 128], &words);
}
