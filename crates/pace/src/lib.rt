// Every step takes a cycle at least, so a run makes no more steps than its clock has gone on: theorems, no code.
#![tactic(auto)]
