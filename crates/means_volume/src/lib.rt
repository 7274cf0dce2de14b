// How large six volumes of a solid can be, and that the reading of every report is exact. There is no code.
#![tactic(auto)]
