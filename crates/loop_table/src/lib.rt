// Loops as the code holds them: a flat table of rows, and words for what is asked of each loop. There is no code.
#![tactic(auto)]
