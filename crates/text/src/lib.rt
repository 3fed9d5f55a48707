// What the programs read alike: input, the budget that a text says, and packed files.
#![tactic(auto)]

pub mod budget;
pub mod input;
pub mod packed;
