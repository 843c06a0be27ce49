// Document 01's worked frames of context management and association control, with cases of its rules beside them. A line is the entry, the frame and the answer with its records.
// The file `stdout` is written by hand from document 01 and docs/TAGS.md.
#![tactic(auto)]

mod entries; // entries.rt: a case of each entry
mod cases; // cases.rt: the frames
mod refused; // refused.rt: the longest frame; what is refused before reading, and for want of room

fn main() {
    cases::empty();
    cases::acse_messages();
    cases::cm_messages();
    refused::longest();
    refused::too_long();
    refused::no_room();
}
