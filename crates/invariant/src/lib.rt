// The fields of an accepted state stay in their ranges: definitions and theorems, no code.
#![tactic(auto)]
