// Any entry, with any tables and room: a case a line in, its answer a line out. tools/differential/README.md has the form of both. CASES.md says where the answers in the file `stdout` are from.
#![tactic(auto)]

use entry_cases::case::{Case, read};
use line_flow::{Turns, each_line};
use line_input::input::Source;
use line_input::parts::Bytes;
use line_output::output::Sink;
use std::io::Read;

// What a line, its tables, its frame and the records go to.
#[derive(Drop)]
struct Memory {
    line: [u8; 140000],
    down: [u8; 300],
    up: [u8; 300],
    frame: [u8; 66000],
    words: [u64; 65536],
}

fn main(rt: HostRuntime) {
    let mut stdin = rt.stdin();
    let mut memory = Memory {
        line: [0; 140000],
        down: [0; 300],
        up: [0; 300],
        frame: [0; 66000],
        words: [0; 65536],
    };
    each_line(&mut stdin, &mut memory);
}

impl Turns for Memory {
    fn turn<R: Read>(&mut self, input: &mut Source<R>, output: &mut Sink) -> bool {
        let mut line = Bytes::new(&mut self.line);
        if !input.next(&mut line) {
            return false;
        }
        match line.line() {
            Some(line) => answer(
                output,
                line,
                &mut self.down,
                &mut self.up,
                &mut self.frame,
                &mut self.words,
            ),
            None => output.put(b"no line\n"),
        }
        true
    }
}

fn answer(
    output: &mut Sink,
    line: &[u8],
    down: &mut [u8],
    up: &mut [u8],
    frame: &mut [u8],
    words: &mut [u64],
) {
    match read(line, down, up, frame, words.len()) {
        Some(case) => heard(output, case, &mut words[..case.room]),
        None => output.put(b"no line\n"),
    }
}

// All the words are lent.
fn heard(output: &mut Sink, case: Case, words: &mut [u64]) {
    word_pattern::fill(words);
    let a = entry_calls::call(
        Some(case.entry),
        case.direction,
        case.down,
        case.up,
        case.frame,
        words,
    );
    entry_answers::answer(output, a, words);
}
