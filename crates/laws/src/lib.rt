#![tactic(auto)]

// Lemmas that the proofs of several crates share, in proofs/. There is no code here.
