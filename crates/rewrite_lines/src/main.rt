// The writer of fixture frames on whole frames: a case a line in, as `entry_lines` takes it; out, a line that says whether the records of the frame, where it is a clean message, are written as the same bits. tools/rewrite-expected has the form of the answers and makes the file `stdout`.
#![tactic(auto)]

use entry_cases::case::read;
use line_flow::{Turns, each_line};
use line_input::input::Source;
use line_input::parts::Bytes;
use line_output::output::Sink;
use std::io::Read;

mod again; // again.rt: the records of a frame written again
mod same; // same.rt: whether bits are the same

// What a line, its tables, its frame, the records and the frame written again go to.
#[derive(Drop)]
struct Memory {
    line: [u8; 140000],
    down: [u8; 300],
    up: [u8; 300],
    frame: [u8; 66000],
    words: [u64; 65536],
    written: [u8; 66000],
}

fn main(rt: HostRuntime) {
    let mut stdin = rt.stdin();
    let mut memory = Memory {
        line: [0; 140000],
        down: [0; 300],
        up: [0; 300],
        frame: [0; 66000],
        words: [0; 65536],
        written: [0; 66000],
    };
    each_line(&mut stdin, &mut memory);
}

impl Turns for Memory {
    fn turn<R: Read>(&mut self, input: &mut Source<R>, output: &mut Sink) -> bool {
        let mut line = Bytes::new(&mut self.line);
        if !input.next(&mut line) {
            return false;
        }
        match line.line() {
            Some(line) => answer(
                output,
                line,
                &mut self.down,
                &mut self.up,
                &mut self.frame,
                &mut self.words,
                &mut self.written,
            ),
            None => output.put(b"no line\n"),
        }
        true
    }
}

fn answer(
    output: &mut Sink,
    line: &[u8],
    down: &mut [u8],
    up: &mut [u8],
    frame: &mut [u8],
    words: &mut [u64],
    written: &mut [u8],
) {
    match read(line, down, up, frame, words.len()) {
        Some(case) => again::heard(output, case, &mut words[..case.room], written),
        None => output.put(b"no line\n"),
    }
}
