// The tables of a drawing's candidates as the walk holds them: a word for each edge and for each candidate. There is no code.
#![tactic(auto)]
