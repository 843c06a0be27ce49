// A frequency: a kind and a number of that kind's range, or the digits of a satellite channel.
#![tactic(auto)]

ghost use Rattle.frequencies.specs.Readers.{Frequencies};

use character_strings::{Text, channel};
use cursor::place::{Cursor, Got, bits};
use field_ranges::table::{FREQUENCY_0, range_at};
use ranged_numbers::ranged;

// Each with its kind and the kind's place: a number, which has a kind below 3 and starts at `number_at`, or the digits of a channel, which is read as kind 3.
#[derive(Clone, Copy)]
pub enum Frequency {
    Number {
        kind: u64,
        kind_at: usize,
        number: u64,
        number_at: usize,
    },
    Channel {
        kind: u64,
        kind_at: usize,
        digits: Text,
    },
}

pub fn read_frequency(s: &[u8], c: Cursor) -> Got<Frequency>
    ensures { Frequencies s.now c result }
{
    let index = bits(s, c, 2);
    let kind = index.v;
    if kind < 3 {
        let range = range_at(FREQUENCY_0.row + kind as usize);
        let number = ranged(s, index.c, range);
        return Got {
            v: Frequency::Number {
                kind,
                kind_at: c.at,
                number: number.v,
                number_at: index.c.at,
            },
            c: number.c,
        };
    }
    let satellite = channel(s, index.c);
    Got {
        v: Frequency::Channel {
            kind: 3,
            kind_at: c.at,
            digits: satellite.v,
        },
        c: satellite.c,
    }
}

#[cfg(test)]
mod tests {
    use super::*;

    // By X.691 a channel is an index of two bits, 3, and twelve characters of four bits each.
    const CHANNEL: [u8; 7] = [0xC8, 0xD1, 0x59, 0xE2, 0x68, 0x48, 0xC0];

    fn read(bits: usize) -> Got<Frequency> {
        let c = Cursor {
            at: 0,
            end: bits,
            why: 0,
            marks: 0,
        };
        read_frequency(&CHANNEL, c)
    }

    // The kind, if it is a channel's.
    fn kind(x: Frequency) -> Option<u64> {
        match x {
            Frequency::Channel { kind, .. } => Some(kind),
            Frequency::Number { .. } => None,
        }
    }

    #[test]
    fn a_channel_is_kind_3(rt: HostRuntime) {
        let channel = read(56);
        assert_eq!(rt; kind(channel.v), Some(3));
        assert_eq!(rt; (channel.c.at, channel.c.why), (50, 0));
    }

    #[test]
    fn a_channel_that_runs_out_is_kind_3(rt: HostRuntime) {
        let channel = read(20);
        assert_eq!(rt; kind(channel.v), Some(3));
        assert_ne!(rt; channel.c.why, 0);
    }
}
