// No code: what it means that an optional part was read and told (specs/), and how such parts follow one another (proofs/).
#![tactic(auto)]
