// What programs share that answer lines with lines: gathered output.
#![tactic(auto)]

pub mod output; // output.rt: standard output, gathered
