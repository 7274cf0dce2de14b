// What follows from the definitions of sheets and of drawings lent as lists, for the code's proofs and the theorems. There is no code.
#![tactic(auto)]
