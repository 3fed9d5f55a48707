// The emulator's own log is one that a count of litres takes: definitions and theorems, no code.
#![tactic(auto)]
