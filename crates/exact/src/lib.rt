// Laws of whole numbers for the proofs of other crates: specs/ has the definitions, proofs/ the laws. There is no code.
#![tactic(auto)]
