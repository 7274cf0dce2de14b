// What follows from the definitions of face lists, for the code's proofs and the theorems. There is no code.
#![tactic(auto)]
