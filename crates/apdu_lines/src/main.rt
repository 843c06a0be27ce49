// `apdu-lines` of document 01: a frame in hexadecimal a line in, what `parse_apdu` says of it a line out. A line has up to 131,072 digits, which are decoded into the one frame as they come. The files `stdin` and `stdout` are document 01's, with cases behind them.
#![tactic(auto)]

use answers::Answer;
use cpdlc::parse_apdu;
use hexadecimal::Refusal;
use line_flow::{Turns, each_line};
use line_input::input::Source;
use line_input::parts::Octets;
use line_output::output::Sink;
use lines::said::{accepted, refused};
use std::io::Read;

// What a frame and its records go to.
#[derive(Drop)]
struct Memory {
    frame: [u8; 65536],
    words: [u64; 8192],
}

fn main(rt: HostRuntime) {
    let mut stdin = rt.stdin();
    let mut memory = Memory {
        frame: [0; 65536],
        words: [0; 8192],
    };
    each_line(&mut stdin, &mut memory);
}

impl Turns for Memory {
    // A line with more characters than two an octet of `frame` has no frame that is short enough, whatever they are.
    fn turn<R: Read>(&mut self, input: &mut Source<R>, output: &mut Sink) -> bool {
        let mut line = Octets::new(&mut self.frame);
        if !input.next(&mut line) {
            return false;
        }
        match line.frame() {
            Ok(frame) => answer(output, frame, &mut self.words),
            Err(Refusal::TooLong) => output.put(b"no 1 0\n"),
            Err(Refusal::NotHexadecimal) => output.put(b"no hex\n"),
        }
        true
    }
}

fn answer(output: &mut Sink, frame: &[u8], words: &mut [u64]) {
    match parse_apdu(frame, &[0; 128], &[0; 256], words) {
        Answer::Accepted {
            cut,
            reach,
            marks,
            count,
        } => accepted(output, cut, reach, marks, count),
        Answer::Refused { number, reach, .. } => refused(output, number, reach),
    }
    output.put(b"\n");
}
