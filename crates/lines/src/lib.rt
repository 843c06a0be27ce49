// Shared by the programs that answer each input line with a line.
#![tactic(auto)]

pub mod said; // said.rt: what is said of an answer
