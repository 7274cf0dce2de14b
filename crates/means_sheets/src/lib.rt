// Sheets and face lists read back and are written back the same: the words in specs/, the theorems in proofs/. No code.
#![tactic(auto)]
