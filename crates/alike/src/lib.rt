// Traces that mean the same replay alike: definitions and theorems, no code.
#![tactic(auto)]
