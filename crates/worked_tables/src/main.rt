// Frames read by lent tables of nodes: an argument that the shop might add, tables that are refused, and one of document 01's. A line is the table's name, the frame and the answer with its records.
// The file `stdout` is written by hand from docs/CALLS.md.
#![tactic(auto)]

mod tables; // tables.rt: the tables
mod frames; // frames.rt: the frames
mod ranges; // ranges.rt: ranges of more than any frame holds
mod refused; // refused.rt: the tables that are refused

fn main() {
    frames::of_the_shop();
    frames::of_the_procedure();
    frames::without_room();
    ranges::of_texts();
    ranges::of_bits();
    ranges::lacked();
    refused::kinds();
    refused::numbers();
    refused::depths();
    refused::in_order();
}
