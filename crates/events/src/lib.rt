// What comes to the machine from outside its program: the records of the trace.
#![tactic(auto)]

pub mod records;
