// What holds of a call for several heads: definitions and theorems, no code.
#![tactic(auto)]
