// A fixed sample of cases that the reference answers, proved of the definitions; written by tools/try-definitions. There is no code.
#![tactic(auto)]
