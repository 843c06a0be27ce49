// What follows from the calls of the name book for any sequence of them. The theorems are in proofs/.
#![tactic(auto)]
