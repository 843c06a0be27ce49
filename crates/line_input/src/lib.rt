// What programs share that answer lines with lines: lines of standard input in constant memory.
#![tactic(auto)]

pub mod input; // input.rt: lines of standard input
pub mod parts; // parts.rt: what a line is put into
