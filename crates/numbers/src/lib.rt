// The numbers that a call answers.
#![tactic(auto)]

pub const DONE: u32 = 0;

// Refusals, in the order in which they are tested.
pub const ROM: u32 = 1;

pub const TABLE: u32 = 2;

pub const IMAGE: u32 = 3;

pub const FIELD: u32 = 4;

pub const STALE: u32 = 5;

pub const TRACE: u32 = 6;

pub const CURSOR: u32 = 7;

pub const LOG: u32 = 8;

// Stops.
pub const CODE: u32 = 9;

pub const REFERENCE: u32 = 10;

pub const CLOCK: u32 = 11;

pub const FULL: u32 = 12;

// A refusal, where an output buffer is shorter than what is to be written.
pub const SHORT: u32 = 13;

// Refusals of a call for several heads, tested before all others.
pub const HEADS: u32 = 14;

pub const TURN: u32 = 15;

// A refusal of the marks and the log of a count of litres.
pub const LITRES: u32 = 16;

// Stops at an undefined code in the place of CODE: one with a register alone that is outside its letter, or with a bank's number alone that is outside its set.
pub const REGISTER: u32 = 17;

pub const BANK: u32 = 18;
