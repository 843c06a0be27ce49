// Runs of messages of document 01's worked frames. A line is the kind with its direction, the run in hexadecimal, the answer, and the lent numbers, each of which was 7.
// The file `stdout` is written by hand from document 01 and from request m) of document 02.
#![tactic(auto)]

mod line; // line.rt: a case's line
mod list; // list.rt: the entry, with its tables and lent numbers
mod cases; // cases.rt: the runs
mod refused; // refused.rt: what is refused, and the longest run

fn main() {
    cases::empty();
    cases::wilco();
    cases::uplink();
    cases::cm();
    cases::acse();
    refused::too_long();
    refused::tables();
    refused::direction();
    refused::no_room();
}
