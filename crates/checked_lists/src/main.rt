// Lists of other shops held to their frames: the records of an entry, and the same with a word changed, words left out or words too many.
// The file `stdout` is written by hand: what is said follows from what was done to the list.
#![tactic(auto)]

mod line; // line.rt: a case's line
mod short; // short.rt: document 01's WILCO frame, and what is refused
mod long; // long.rt: more records than most messages have

fn main() {
    short::lists();
    short::changed();
    short::placed();
    short::other_entries();
    short::refusals();
    long::lists();
}
