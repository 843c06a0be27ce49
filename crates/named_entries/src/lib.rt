// The entry of the book that the name in a frame makes.
#![tactic(auto)]

ghost use Rattle.std.specs.Prelude.{◌≡◌, ◌≤◌, ◌<◌};
ghost use Rattle.named_entries.specs.Made.{entry_of};

use book_entries::Entry;
use forward_names::Named;

// The entry of a name, the frame's number and its byte length.
pub fn entry_of(name: Named, number: u32, bytes: usize) -> Entry
    requires { (name.size ≤ 8) × (bytes < 1048576) }
    ensures { result ≡ entry_of name number bytes }
{
    Entry {
        high: (name.text / 4294967296) as u32,
        low: (name.text % 4294967296) as u32,
        number: number,
        shape: (name.size as u32) * 1048576 + (bytes as u32),
    }
}
