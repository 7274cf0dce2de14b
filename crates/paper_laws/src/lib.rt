// What follows from the definitions of document 01, for the proofs of several crates: in proofs/. There is no code.
#![tactic(auto)]
