// Pending interrupts: what is served, and what releases idle and stop mode.
#![tactic(auto)]

ghost use Rattle.std.specs.Prelude.{◌≡◌, ◌<◌, ◌≤◌};
ghost use Rattle.pending.specs.Pending.{named_of, first_of, served_of, wakes_vectored, wakes_of, acknowledged_of};

use chip::interrupts::{asks, ime, ipr, is_flags};
use chip::{DataMemory, locations, memory};

// No source.
pub const NO_SOURCE: u8 = 5;

// The source that IPR names, if it asks.
#[tactic(auto, unfolding(crate::specs::Pending::named_of))]
fn named(mem: &DataMemory) -> u8
    ensures { (result ≡ named_of mem.now) × (result ≤ 5) }
{
    let p = ipr(mem);
    if p == 0 {
        return NO_SOURCE;
    }
    if 5 < p {
        return NO_SOURCE;
    }
    if asks(mem, p - 1) { p - 1 } else { NO_SOURCE }
}

// The first source that asks, by priority.
#[tactic(auto, unfolding(crate::specs::Pending::first_of))]
fn first(mem: &DataMemory) -> u8
    ensures { (result ≡ first_of mem.now) × (result ≤ 5) }
{
    if asks(mem, 0) {
        return 0;
    }
    if asks(mem, 1) {
        return 1;
    }
    if asks(mem, 2) {
        return 2;
    }
    if asks(mem, 3) {
        return 3;
    }
    if asks(mem, 4) {
        return 4;
    }
    NO_SOURCE
}

// The source that an interrupt serves now.
#[tactic(auto, unfolding(crate::specs::Pending::served_of))]
pub fn served(mem: &DataMemory) -> u8
    ensures { (result ≡ served_of mem.now) × (result ≤ 5) }
{
    if ime(mem) == 0 {
        return NO_SOURCE;
    }
    let status = is_flags(mem);
    if 1 < status {
        return NO_SOURCE;
    }
    let high = named(mem);
    if status == 1 {
        return high;
    }
    if high == 5 { first(mem) } else { high }
}

// A vectored source but INT0 asks.
#[tactic(auto, unfolding(crate::specs::Pending::wakes_vectored))]
pub fn wakes_vectored(mem: &DataMemory) -> bool
    ensures { result ≡ wakes_vectored mem.now }
{
    if asks(mem, 0) {
        return true;
    }
    if asks(mem, 2) {
        return true;
    }
    if asks(mem, 3) {
        return true;
    }
    asks(mem, 4)
}

// Any source but INT0 asks.
#[tactic(auto, unfolding(crate::specs::Pending::wakes_of))]
pub fn wakes(mem: &DataMemory) -> bool
    ensures { result ≡ wakes_of mem.now }
{
    if wakes_vectored(mem) {
        return true;
    }
    if asks(mem, 5) {
        return true;
    }
    asks(mem, 6)
}

// The write that clears the request flag of source k.
#[tactic(auto, unfolding(crate::specs::Pending::acknowledged_of))]
pub fn acknowledged(mem: &DataMemory, k: u8) -> u16
    requires { k < 5 }
    ensures { result ≡ acknowledged_of mem.now k }
{
    match k {
        0 => memory::write_to(
            locations::INTB,
            memory::with_bit(memory::nib(mem, locations::INTB), 0, 0),
        ),
        1 => memory::write_to(
            locations::INT01,
            memory::with_bit(memory::nib(mem, locations::INT01), 0, 0),
        ),
        2 => memory::write_to(
            locations::INT01,
            memory::with_bit(memory::nib(mem, locations::INT01), 2, 0),
        ),
        3 => memory::write_to(
            locations::INTS,
            memory::with_bit(memory::nib(mem, locations::INTS), 0, 0),
        ),
        _ => memory::write_to(
            locations::INTT0,
            memory::with_bit(memory::nib(mem, locations::INTT0), 0, 0),
        ),
    }
}
