// When a program that answers lines writes what it has gathered, and when it ends.
#![tactic(auto)]

ghost use Rattle.std.specs.Prelude.{◌≡◌, ◌≤◌, if◌then◌else◌};
ghost use Rattle.std.proofs.Common.{Break, Continue};

use line_input::input::{Input, Source};
use line_output::output::Sink;
use std::io::Read;
use std::ops::ControlFlow;

// What answers lines.
pub trait Turns {
    // Takes a line and answers it, and says whether there was one.
    fn turn<R: Read>(&mut self, source: &mut Source<R>, sink: &mut Sink) -> bool;
}

// Line after line, until none is left or a write fails.
pub fn each_line<R: Read, T: Turns>(stdin: &mut R, turns: &mut T) {
    let mut taken = io::large_buffer();
    let mut gathered = io::large_buffer();
    let mut source = Source::new(stdin, &mut taken);
    let mut sink = Sink::new(&mut gathered);
    // Nothing says that the input ends: its lines are fewer than any run counts.
    for _ in 0..u64::MAX {
        let next = if turns.turn(&mut source, &mut sink) {
            answered(source.input, &mut sink)
        } else {
            ended(&mut sink)
        };
        if next.is_break() {
            return;
        }
    }
}

// After an answer: it is written now where no further line waits, so that whoever types lines sees each answer. A write that failed is the end.
pub fn answered(input: Input, sink: &mut Sink) -> ControlFlow<()>
    ensures written { input.end ≤ input.at → sink.new.output.len ≡ 0 }
    ensures goes_on { result ≡ (if sink.new.output.failed then Break tt else Continue tt) }
{
    if input.end <= input.at {
        sink.flush();
    }
    if sink.output.failed {
        ControlFlow::Break(())
    } else {
        ControlFlow::Continue(())
    }
}

// After the last line.
pub fn ended(sink: &mut Sink) -> ControlFlow<()>
    ensures written { sink.new.output.len ≡ 0 }
    ensures over { result ≡ Break tt }
{
    sink.flush();
    ControlFlow::Break(())
}
