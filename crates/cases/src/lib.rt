// Worked cases of document 01 and examples of the manual, as theorems about the definitions; the crate has no code.
#![tactic(auto)]
