// Text for the operator's screen: the phrases and the records of a reading a line in; out, `shown` with the number of bytes and then the lines of the elements, or `no`, the refusal and the bytes needed.
#![tactic(auto)]

use line_flow::{Turns, each_line};
use line_input::input::Source;
use line_input::parts::Bytes;
use line_output::output::Sink;
use lines::said::labelled;
use screen::screen_lines;
use std::io::Read;

mod asked; // asked.rt: what a line asks

use asked::Asked;

// What a line, its phrases, its words and the text go to.
#[derive(Drop)]
struct Memory {
    line: [u8; 262144],
    down: [u8; 32768],
    up: [u8; 32768],
    words: [u64; 32768],
    text: [u8; 65536],
}

fn main(rt: HostRuntime) {
    let mut stdin = rt.stdin();
    let mut memory = Memory {
        line: [0; 262144],
        down: [0; 32768],
        up: [0; 32768],
        words: [0; 32768],
        text: [0; 65536],
    };
    each_line(&mut stdin, &mut memory);
}

impl Turns for Memory {
    fn turn<R: Read>(&mut self, input: &mut Source<R>, output: &mut Sink) -> bool {
        let mut line = Bytes::new(&mut self.line);
        if !input.next(&mut line) {
            return false;
        }
        match line.line() {
            Some(line) => answer(
                output,
                line,
                &mut self.down,
                &mut self.up,
                &mut self.words,
                &mut self.text,
            ),
            None => output.put(b"no line\n"),
        }
        true
    }
}

fn answer(
    output: &mut Sink,
    line: &[u8],
    down: &mut [u8],
    up: &mut [u8],
    words: &mut [u64],
    text: &mut [u8],
) {
    match asked::read(line, down, up, words, text.len()) {
        Some(asked) => show(output, asked, &mut text[..asked.room]),
        None => output.put(b"no line\n"),
    }
}

fn show(output: &mut Sink, asked: Asked, text: &mut [u8]) {
    match screen_lines(asked.words, asked.down, asked.up, text) {
        Ok(bytes) => {
            labelled(output, b"shown ", bytes as u64);
            output.put(b"\n");
            if let Some(shown) = text.get(..bytes) {
                output.put(shown);
            }
        }
        Err(refusal) => {
            labelled(output, b"no ", refusal.number());
            labelled(output, b" ", refusal.need() as u64);
            output.put(b"\n");
        }
    }
}
