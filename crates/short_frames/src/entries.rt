// The messages. Two records are the most that so short a frame of Context Management has, three of association control.
use acse::parse_acse_apdu;
use answers::Answer;
use cm::parse_cm;
use listing::{Line, put_answer};

#[derive(Clone, Copy)]
pub enum Entry {
    CmFromGround,
    CmFromAircraft,
    Acse,
}

pub fn put_entry(line: &mut Line, entry: Entry) {
    line.put_text(match entry {
        Entry::CmFromGround => b"cm 1 ",
        Entry::CmFromAircraft => b"cm 0 ",
        Entry::Acse => b"acse ",
    });
}

// The answer's text is put. The line is the caller's: one that is handed back would be copied for each frame.
pub fn ask(line: &mut Line, entry: Entry, frame: &[u8]) {
    let mut words = [0u64; 160];
    let answer = parse(entry, frame, &mut words);
    put_answer(line, &words, answer);
}

fn parse(entry: Entry, frame: &[u8], words: &mut [u64; 160]) -> Answer {
    match entry {
        Entry::CmFromGround => parse_cm(frame, 1, words),
        Entry::CmFromAircraft => parse_cm(frame, 0, words),
        Entry::Acse => parse_acse_apdu(frame, words),
    }
}
