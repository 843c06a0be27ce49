// What C and Rust link: each export calls the function of the library `adjagosk` by its name, and says what that says. include/adjagosk.h of that crate has them for C; directions are numbers there.
#![tactic(auto)]

ghost use Rattle.atn.specs.Entries.{parse_apdu, parse_pdus, parse_cm, parse_acse_apdu};
ghost use Rattle.adjagosk.specs.Gives.{Gives};

use adjagosk::Numbers;

pub mod writing; // writing.rt: the writer of fixture frames

#[unsafe(no_mangle)]
pub extern "C" fn adjagosk_apdu(frame: &[u8], down: &[u8], up: &[u8], words: &mut [u64]) -> Numbers
    ensures { Gives result words.new (parse_apdu frame.now down.now up.now words.old) }
{
    adjagosk::adjagosk_apdu(frame, down, up, words)
}

#[unsafe(no_mangle)]
pub extern "C" fn adjagosk_pdus(
    frame: &[u8],
    direction: u64,
    down: &[u8],
    up: &[u8],
    words: &mut [u64],
) -> Numbers
    ensures { Gives result words.new (parse_pdus frame.now direction down.now up.now words.old) }
{
    adjagosk::adjagosk_pdus(frame, direction, down, up, words)
}

#[unsafe(no_mangle)]
pub extern "C" fn adjagosk_cm(frame: &[u8], direction: u64, words: &mut [u64]) -> Numbers
    ensures { Gives result words.new (parse_cm frame.now direction words.old) }
{
    adjagosk::adjagosk_cm(frame, direction, words)
}

#[unsafe(no_mangle)]
pub extern "C" fn adjagosk_acse(frame: &[u8], words: &mut [u64]) -> Numbers
    ensures { Gives result words.new (parse_acse_apdu frame.now words.old) }
{
    adjagosk::adjagosk_acse(frame, words)
}
