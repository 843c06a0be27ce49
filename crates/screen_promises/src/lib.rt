// What follows for who reads the screen stands in proofs/. Nothing runs here.
#![tactic(auto)]
