// The demands at the entries: what follows for callers from the contracts of the four entries. There is nothing to run here; proofs/ has it.
#![tactic(auto)]
