// What loops and candidates are, in plain mathematics: closed paths in one plane, each once, in normal form. There is no code.
#![tactic(auto)]
