// The rows of crates/record_grammar held to the messages of crates/atn: what is to hold stands in specs/, that it does in proofs/. Nothing runs here.
#![tactic(auto)]
