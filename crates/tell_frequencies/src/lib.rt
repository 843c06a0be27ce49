// The records of a frequency, put into the lent words behind the first n. The characters of a channel are read where they stand in the frame s.
#![tactic(auto)]

ghost use Rattle.std.specs.Prelude.{◌<◌, ◌^◌};
ghost use Rattle.records.specs.Told.{Told};
ghost use Rattle.frequencies.specs.Records.{frequency_recs, HeldFrequency};

use cpdlc_tags::{FREQUENCY, FREQUENCY_NUMBER, SATELLITE_CHANNEL, SATELLITE_CHANNEL_X691};
use frequencies::Frequency;
use records::emit;
use tell::tell_channel;

pub fn tell_frequency(words: &mut [u64], n: usize, element: u64, s: &[u8], x: Frequency) -> usize
    requires { (n < 2 ^ 30) × HeldFrequency s.now x }
    ensures { Told 5 words.old words.new n result (frequency_recs s.now x element) }
{
    match x {
        Frequency::Number {
            kind,
            kind_at,
            number,
            number_at,
        } => {
            let m = emit(words, n, FREQUENCY, element, kind, 0, kind_at);
            emit(words, m, FREQUENCY_NUMBER, element, number, 0, number_at)
        }
        Frequency::Channel {
            kind,
            kind_at,
            digits,
        } => {
            let behind = emit(words, n, FREQUENCY, element, kind, 0, kind_at);
            tell_channel(
                words,
                behind,
                SATELLITE_CHANNEL,
                SATELLITE_CHANNEL_X691,
                element,
                s,
                digits,
            )
        }
    }
}
