// Association control: `parse_acse_apdu`. The message is read as a value first, and its records, three at most, are written once it is known that they fit.
#![tactic(auto)]

ghost use Rattle.atn.specs.Entries.{parse_acse_apdu};
ghost use Rattle.answers.specs.Says.{Says};

use answers::{Answer, LONGEST_FRAME};

mod telling; // telling.rt: its records, in lent words

pub fn parse_acse_apdu(frame: &[u8], words: &mut [u64]) -> Answer
    ensures { Says result words.new (parse_acse_apdu frame.now words.old) }
{
    if LONGEST_FRAME < frame.len() {
        return Answer::Refused {
            number: 1,
            reach: 0,
            need: 0,
            lacked: 0,
        };
    }
    let apdu = acse_apdus::read_apdu(frame);
    match apdu {
        acse_apdus::Apdu::Heard(message) => telling::settle_message(message, words),
        acse_apdus::Apdu::RanOut(reach, lacked) => Answer::Refused {
            number: 4,
            reach: reach,
            need: 0,
            lacked: lacked,
        },
        acse_apdus::Apdu::Badly(reach) => Answer::Refused {
            number: 5,
            reach: reach,
            need: 0,
            lacked: 0,
        },
    }
}
