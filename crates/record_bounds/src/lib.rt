// How many records a clean message has at most. The definition stands in specs/, what follows from it in proofs/. Nothing runs here.
#![tactic(auto)]
