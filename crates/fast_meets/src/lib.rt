// Rule 13 with each pair of edges asked once: the words in specs/, the theorems in proofs/. There is no code.
#![tactic(auto)]
