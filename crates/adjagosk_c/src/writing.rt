// The writer of fixture frames for programs in C and Rust; kinds and directions are numbers, as the C interface has them.
ghost use Rattle.record_lists.specs.Message.{write_message};
ghost use Rattle.adjagosk.specs.Frames.{FillsFrame};

use adjagosk::writing::Frame;

#[unsafe(no_mangle)]
pub extern "C" fn adjagosk_write(
    kind: u64,
    direction: u64,
    down: &[u8],
    up: &[u8],
    words: &[u64],
    source: &[u8],
    out: &mut [u8],
) -> Frame
    ensures { FillsFrame result out.new (write_message kind direction down.now up.now words.now source.now out.old) }
{
    adjagosk::writing::adjagosk_write(kind, direction, down, up, words, source, out)
}
