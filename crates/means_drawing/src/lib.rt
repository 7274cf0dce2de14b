// The drawing rules 11 to 14 in plain mathematics, proved of their definitions: the words in specs/, the theorems in proofs/. No code.
#![tactic(auto)]
