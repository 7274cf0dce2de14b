// The masks of a drawing's tables say (i) to (v) of a solid in plain mathematics. There is no code.
#![tactic(auto)]
