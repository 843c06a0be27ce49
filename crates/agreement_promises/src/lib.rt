// The arguments of elements held to the lent tables: what is to hold of the records of every accepted frame stands in specs/, that it does in proofs/. Nothing runs here.
#![tactic(auto)]
