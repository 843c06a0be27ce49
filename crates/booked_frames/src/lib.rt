// A frame offered to the day's name book.
#![tactic(auto)]

ghost use Rattle.name_book.specs.Calls.{Leaves};
ghost use Rattle.booked_frames.specs.Frames.{add_frame};

use book_entries::Entry;
use forward_names::forward_name;
use name_book::{Added, Refusal, add_entry};
use named_entries::entry_of;

// The name is that of a forward message which the uplink reading calls clean; any other frame is without a name.
pub fn add_frame(
    book: &mut [u32],
    frame: &[u8],
    number: u32,
    down: &[u8],
    up: &[u8],
) -> Result<Added, Refusal>
    ensures { Leaves result book.new (add_frame book.old frame.now number down.now up.now) }
{
    let name = forward_name(frame, down, up);
    if name.number != 0 {
        let nameless = Entry {
            high: 0,
            low: 0,
            number: number,
            shape: 0,
        };
        return add_entry(book, nameless);
    }
    add_entry(book, entry_of(name, number, frame.len()))
}
