// A logon request with twenty applications: 4 records and 60, more than the 48 that the checker's fewer words hold.
use super::line::print;
use cm::parse_cm;
use list_checker::check_list;
use list_checker::entries::Entry;

// 0 00, presence bits 010000, and zeros up to the count of the applications, 19 above 1, at bit 148.
fn logon() -> [u8; 60] {
    let mut frame = [0u8; 60];
    frame[0] = 0x08;
    frame[18] = 0x01;
    frame[19] = 0x30;
    frame
}

fn records() -> [u64; 325] {
    let mut words = [0u64; 325];
    parse_cm(&logon(), 0, &mut words);
    words
}

fn check(what: &[u8], direction: u64, words: &[u64; 325], n: usize) {
    first(what, direction, words, n);
}

// The first n words of the list.
fn first(what: &[u8], direction: u64, words: &[u64], n: usize) {
    if n <= words.len() {
        let said = check_list(&logon(), Entry::Cm(direction), &[], &[], &words[..n]);
        print(what, said);
    }
}

pub fn lists() {
    let mut words = records();
    check(b"all 64", 0, &words, 320);
    check(b"63", 0, &words, 315);
    check(b"65", 0, &words, 325);
    check(b"as the ground's", 1, &words, 320);
    words[318] = 1;
    check(b"a second number in the last", 0, &words, 320);
}
