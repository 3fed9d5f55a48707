// A step of the machine after its rules: what passes, the stops, the log and the commit (`settle::settled`, which answers for the step). The records that
// are due come before the rules (`arrivals::arrived`). proofs/Settling.antt puts a step together of these and the rules. In the hold after
// a reset a cycle of it takes the rules' place, here as everywhere in this crate.
#![tactic(auto)]

use chip::Cpu;

pub mod settle;

// What a step answers: the scalars after it, the due time of the record at the cursor and how many bytes were logged; or the number and
// the address of a stop.
#[derive(Clone, Copy)]
pub enum Stepping {
    Moved(Cpu, u64, usize),
    Stopped(u8, u16),
}
