// Every frame of up to two bytes, through the entries of context management and association control. Frames that follow each other and have the same answer share a line:
// the entry, the first and the last of them, and the answer. The file `stdout` is made from the answers of the Rust alone, by tools/differential/short-list.
#![tactic(auto)]

mod entries; // entries.rt: CM in both directions and ACSE
mod frames; // frames.rt: a frame by its number
mod alike; // alike.rt: frames with the same answer

use entries::Entry;

fn main() {
    each_length(Entry::CmFromGround);
    each_length(Entry::CmFromAircraft);
    each_length(Entry::Acse);
}

fn each_length(entry: Entry) {
    alike::print_runs(entry, 0, 0);
    alike::print_runs(entry, 1, 255);
    alike::print_runs(entry, 2, 65535);
}
