// The writer of fixture frames for programs in C and Rust. Kinds, directions and refusals are numbers, as the C interface has them.
ghost use Rattle.std.specs.Prelude.{◌≡◌};
ghost use Rattle.record_lists.specs.Message.{write_message};
ghost use Rattle.fixture_writer.specs.Says.{answer_of};
ghost use Rattle.adjagosk.specs.Frames.{FillsFrame, frame_of};

use fixture_writer::{Refusal, write_message};

// What was written, in numbers. `refused` is 0, or the number of the refusal: 2, 3, 8 or 9. Behind a refusal `bits` is 0, and only 9 has a `need`, in bytes.
#[repr(C)]
#[derive(Clone, Copy)]
pub struct Frame {
    pub refused: u64,
    pub bits: usize,
    pub need: usize,
}

pub fn adjagosk_write(
    kind: u64,
    direction: u64,
    down: &[u8],
    up: &[u8],
    words: &[u64],
    source: &[u8],
    out: &mut [u8],
) -> Frame
    ensures { FillsFrame result out.new (write_message kind direction down.now up.now words.now source.now out.old) }
{
    let a = write_message(kind, direction, down, up, words, source, out);
    in_frame(a)
}

fn in_frame(a: Result<usize, Refusal>) -> Frame
    ensures { result ≡ frame_of (answer_of a) }
{
    match a {
        Ok(bits) => Frame {
            refused: 0,
            bits,
            need: 0,
        },
        Err(refusal) => Frame {
            refused: refusal.number(),
            bits: 0,
            need: refusal.need(),
        },
    }
}
