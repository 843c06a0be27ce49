// Document 01's worked ranges, lengths and normally small numbers, with cases beside them. Each is read by the cursor from a frame of its own and printed on a line:
// what is read, the frame, the value (- where the reading stopped), why it stopped (0 where it did not), the mark set and the reach. The file `stdout` is written by hand from document 01.
#![tactic(auto)]

mod line; // line.rt: a case's line
mod ranges; // ranges.rt: numbers of a range
mod sizes; // sizes.rt: sizes and counts
mod lengths; // lengths.rt: length determinants
mod smalls; // smalls.rt: normally small numbers

fn main() {
    ranges::years();
    ranges::levels();
    sizes::airports();
    sizes::elements();
    lengths::read();
    lengths::refused();
    smalls::read();
    smalls::refused();
}
