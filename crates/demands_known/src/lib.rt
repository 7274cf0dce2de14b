// Known drawings, put to the demands. There is no code.
#![tactic(auto)]
