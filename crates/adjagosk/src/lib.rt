// The four entries, and the writer, for programs in C and Rust: the crate adjagosk_c exports them, and include/adjagosk.h beside src/ has them for C. A slice is a pointer and a length there; directions, kinds and refusals are numbers, as the C interface has them.
#![tactic(auto)]

ghost use Rattle.std.specs.Prelude.{◌≡◌};
ghost use Rattle.atn.specs.Entries.{parse_apdu, parse_pdus, parse_cm, parse_acse_apdu};
ghost use Rattle.answers.specs.Says.{answer_of};
ghost use Rattle.adjagosk.specs.Gives.{Gives, numbers_of};

use acse::parse_acse_apdu;
use answers::Answer;
use cm::parse_cm;
use cpdlc::{parse_apdu, parse_pdus};

pub mod writing; // writing.rt: the writer of fixture frames

// An answer in numbers. `refused` is 0, or document 01's number. Behind a refusal all but the reach and, for 7, the words needed, and for 4 the bits lacked, is 0.
#[repr(C)]
#[derive(Clone, Copy)]
pub struct Numbers {
    pub refused: u64,
    pub cut: bool,
    pub reach: usize,
    pub marks: u64,
    pub records: usize,
    pub need: usize,
    pub lacked: usize,
}

pub fn adjagosk_apdu(frame: &[u8], down: &[u8], up: &[u8], words: &mut [u64]) -> Numbers
    ensures { Gives result words.new (parse_apdu frame.now down.now up.now words.old) }
{
    let a = parse_apdu(frame, down, up, words);
    in_numbers(a)
}

pub fn adjagosk_pdus(
    frame: &[u8],
    direction: u64,
    down: &[u8],
    up: &[u8],
    words: &mut [u64],
) -> Numbers
    ensures { Gives result words.new (parse_pdus frame.now direction down.now up.now words.old) }
{
    let a = parse_pdus(frame, direction, down, up, words);
    in_numbers(a)
}

pub fn adjagosk_cm(frame: &[u8], direction: u64, words: &mut [u64]) -> Numbers
    ensures { Gives result words.new (parse_cm frame.now direction words.old) }
{
    let a = parse_cm(frame, direction, words);
    in_numbers(a)
}

pub fn adjagosk_acse(frame: &[u8], words: &mut [u64]) -> Numbers
    ensures { Gives result words.new (parse_acse_apdu frame.now words.old) }
{
    let a = parse_acse_apdu(frame, words);
    in_numbers(a)
}

fn in_numbers(a: Answer) -> Numbers
    ensures { result ≡ numbers_of (answer_of a) }
{
    match a {
        Answer::Accepted {
            cut,
            reach,
            marks,
            count,
        } => Numbers {
            refused: 0,
            cut: cut,
            reach: reach,
            marks: marks,
            records: count,
            need: 0,
            lacked: 0,
        },
        Answer::Refused {
            number,
            reach,
            need,
            lacked,
        } => Numbers {
            refused: number,
            cut: false,
            reach: reach,
            marks: 0,
            records: 0,
            need: need,
            lacked: lacked,
        },
    }
}
