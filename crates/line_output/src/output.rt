// Standard output, gathered in lent bytes. After a write that fails nothing more is written, and standard error has said so.
ghost use Rattle.std.specs.Prelude.{◌≡◌, ◌≤◌, false, length};

// How many of the lent bytes, the first ones, are not written yet, and whether a write failed. `failed` stays a flag: nothing beside it holds by it alone.
#[derive(Clone, Copy)]
pub struct Output {
    pub len: usize,
    pub failed: bool,
}

// The lent bytes in which output is gathered, and where the writing stands.
#[derive(Drop)]
pub struct Sink<'a> {
    space: &'a mut [u8],
    pub output: Output,
    ghost gathered: { output.len ≤ length space.now },
}

impl<'a> Sink<'a> {
    pub fn new(space: &'a mut [u8]) -> Sink<'a>
        ensures empty { result.output.len ≡ 0 }
        ensures sound { result.output.failed ≡ false }
    {
        Sink {
            space,
            output: Output {
                len: 0,
                failed: false,
            },
        }
    }

    // What is gathered is written.
    pub fn flush(&mut self)
        ensures { self.new.output.len ≡ 0 }
    {
        let len = self.output.len;
        self.output.len = 0;
        if !self.output.failed {
            self.output.failed = !written(&self.space[..len]);
        }
    }

    pub fn put(&mut self, text: &[u8]) {
        if self.space.len() - self.output.len < text.len() {
            self.flush();
        }
        let len = self.output.len;
        if text.len() <= self.space.len() {
            self.space[len..len + text.len()].copy_from_slice(text);
            self.output.len = len + text.len();
        } else if !self.output.failed {
            self.output.failed = !written(text);
        }
    }

    pub fn put_number(&mut self, n: u64) {
        let mut digits = [0u8; 20];
        let k = io::decimal(n, &mut digits);
        self.put(&digits[..k]);
    }
}

// Whether all was written; else standard error says so.
fn written(text: &[u8]) -> bool {
    let all = io::write_all(1, text);
    if !all {
        io::write_all(2, b"standard output: a write failed\n");
    }
    all
}
