// Reading by a lent table of nodes: the definitions of this crate stand in specs/, what follows from them in proofs/. Nothing runs here.
#![tactic(auto)]
