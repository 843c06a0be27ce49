// Lines of standard input, read through lent bytes, so that the memory does not grow with the input.
ghost use Rattle.std.specs.Prelude.{◌≡◌, ◌≤◌, false, length};

use super::parts::Parts;
use std::io::Read;

pub const NEWLINE: u8 = b'\n';

// The lent bytes from `at` to `end` are read and not yet taken. After a read that failed nothing more is read, and standard error has said so. `failed` stays a flag: nothing beside it holds by it alone.
#[derive(Clone, Copy)]
pub struct Input {
    pub at: usize,
    pub end: usize,
    pub failed: bool,
}

// What is read, the lent bytes that it is read through, and where the reading stands.
#[derive(Drop)]
pub struct Source<'a, R: Read> {
    stdin: &'a mut R,
    space: &'a mut [u8],
    pub input: Input,
    ghost ordered: { input.at ≤ input.end },
    ghost within: { input.end ≤ length space.now },
}

impl<'a, R: Read> Source<'a, R> {
    pub fn new(stdin: &'a mut R, space: &'a mut [u8]) -> Source<'a, R>
        ensures empty { result.input.at ≡ result.input.end }
        ensures sound { result.input.failed ≡ false }
    {
        Source {
            stdin,
            space,
            input: Input {
                at: 0,
                end: 0,
                failed: false,
            },
        }
    }

    // Hands on the next line without its newline, a part after another, and says whether there was one: there is none at the end of the input and where a read fails. The last one may lack its newline.
    pub fn next<P: Parts>(&mut self, line: &mut P) -> bool {
        let mut any = false;
        // Nothing says that a line ends: its parts are fewer than any run counts.
        for _ in 0..u64::MAX {
            self.fill();
            if self.input.at == self.input.end {
                return any && !self.input.failed;
            }
            any = true;
            if self.part(line) {
                return true;
            }
        }
        any
    }

    // What is there of the line; whether it ends there.
    fn part<P: Parts>(&mut self, line: &mut P) -> bool {
        let waiting = &self.space[self.input.at..self.input.end];
        match waiting.iter().position(|b| *b == NEWLINE) {
            Some(n) => {
                line.add(&waiting[..n]);
                self.input.at += n + 1;
                true
            }
            None => {
                line.add(waiting);
                self.input.at = self.input.end;
                false
            }
        }
    }

    // Reads once where nothing is left; what is then empty is at its end.
    fn fill(&mut self) {
        if self.input.at < self.input.end || self.input.failed {
            return;
        }
        self.input.at = 0;
        self.input.end = 0;
        match self.stdin.read(self.space) {
            Ok(got) => self.input.end = got,
            Err(_) => {
                io::write_all(2, b"standard input: a read failed\n");
                self.input.failed = true;
            }
        }
    }
}
