// X.691's published examples, as far as the cursor can read them: unaligned encodings of its Annex A. Numbers, lengths, characters and normally small numbers are read where the example's type has them, and printed.
// The file `stdout` is written by hand from the values that X.691 gives; docs/OUTSIDE.md says more.
#![tactic(auto)]

mod read; // read.rt: what is read, printed
mod personnel; // personnel.rt: A.1, a record without constraints
mod extended; // extended.rt: A.4, a sequence with extensions

fn main() {
    personnel::as_published();
    personnel::near_misses();
    extended::as_published();
    extended::near_misses();
}
