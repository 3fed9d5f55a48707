// Jumps, calls, returns and CPU control. n is the address after the instruction.
#![tactic(auto)]

ghost use Rattle.std.specs.Prelude.{◌≡◌, ◌<◌, ◌≤◌};
ghost use Rattle.chip.specs.State.{at};
ghost use Rattle.control.specs.Control.{jump, forward_of, back_of, page_of, call_to, return_of, return_from, interrupt_return, set_ime, set_mode, set_smb, set_srb};

use chip::{Cpu, DataMemory, locations, memory};
use effects::{Effect, NO_SKIP, NONE, doing, pushing, selecting};

#[tactic(auto, unfolding(crate::specs::Control::jump))]
pub fn jump_to(c: Cpu, a: u16) -> Effect
    ensures { result ≡ jump c a }
{
    doing(c, a, NO_SKIP, 0, NONE, NONE, NONE, NONE)
}

pub fn forward(pc: u16, a: u8) -> u16
    ensures { result ≡ forward_of pc a }
{
    pc % 4096 + 1 + (a as u16)
}

pub fn back(pc: u16, a: u8) -> u16
    ensures { result ≡ back_of pc a }
{
    pc % 4096 + 4096 - (a as u16)
}

pub fn page(n: u16, low: u8) -> u16
    ensures { result ≡ page_of n low }
{
    n / 256 * 256 + (low as u16)
}

#[tactic(auto, unfolding(crate::specs::Control::call_to))]
pub fn call_to(mem: &DataMemory, c: Cpu, back: u16, a: u16) -> Effect
    ensures { result ≡ call_to (at mem.now c) back a }
{
    pushing(
        c,
        a,
        back,
        (memory::nib(mem, locations::STATUS) % 4) as u16,
        NONE,
        NONE,
    )
}

#[tactic(auto, unfolding(crate::specs::Control::return_of))]
fn return_of(mem: &DataMemory, s: u16) -> u16
    requires { s < 256 }
    ensures { result ≡ return_of mem.now s }
{
    let a = memory::nib(mem, registers::stack_at(s, 1)) % 4;
    let b = memory::nib(mem, registers::stack_at(s, 0));
    let d = memory::nib(mem, registers::stack_at(s, 3));
    let e = memory::nib(mem, registers::stack_at(s, 2));
    4096 * (a as u16) + 256 * (b as u16) + 16 * (d as u16) + (e as u16)
}

#[tactic(auto, unfolding(crate::specs::Control::return_from))]
pub fn return_from(mem: &DataMemory, c: Cpu, skip: u8) -> Effect
    ensures { result ≡ return_from (at mem.now c) skip }
{
    let s = registers::sp(mem);
    let p = memory::nib(mem, locations::STATUS) / 4 * 4
        + memory::nib(mem, registers::stack_at(s, 4)) % 4;
    doing(
        c,
        return_of(mem, s),
        skip,
        0,
        registers::sp_low(s + 6),
        registers::sp_high(s + 6),
        memory::write_to(locations::STATUS, p),
        NONE,
    )
}

#[tactic(auto, unfolding(crate::specs::Control::interrupt_return))]
pub fn interrupt_return(mem: &DataMemory, c: Cpu) -> Effect
    ensures { result ≡ interrupt_return (at mem.now c) }
{
    let s = registers::sp(mem);
    let p = memory::nib(mem, registers::stack_at(s, 4));
    let q = memory::nib(mem, registers::stack_at(s, 5));
    doing(
        c,
        return_of(mem, s),
        NO_SKIP,
        0,
        registers::sp_low(s + 6),
        registers::sp_high(s + 6),
        memory::write_to(locations::STATUS, p),
        memory::write_to(locations::CARRY, q),
    )
}

#[tactic(auto, unfolding(crate::specs::Control::set_ime))]
pub fn set_ime(mem: &DataMemory, c: Cpu, n: u16, v: u8) -> Effect
    requires { v ≤ 1 }
    ensures { result ≡ set_ime (at mem.now c) n v }
{
    let w = memory::write_to(locations::IPR, memory::nib(mem, locations::IPR) % 8 + 8 * v);
    doing(c, n, NO_SKIP, 0, w, NONE, NONE, NONE)
}

#[tactic(auto, unfolding(crate::specs::Control::set_mode))]
pub fn set_mode(c: Cpu, n: u16, v: u8) -> Effect
    ensures { result ≡ set_mode c n v }
{
    selecting(n, c.smb, c.srb, v, NONE, NONE)
}

#[tactic(auto, unfolding(crate::specs::Control::set_smb))]
pub fn set_smb(c: Cpu, n: u16, v: u8) -> Effect
    ensures { result ≡ set_smb c n v }
{
    selecting(n, v % 16, c.srb, c.mode, NONE, NONE)
}

#[tactic(auto, unfolding(crate::specs::Control::set_srb))]
pub fn set_srb(c: Cpu, n: u16, v: u8) -> Effect
    ensures { result ≡ set_srb c n v }
{
    selecting(n, c.smb, v % 4, c.mode, NONE, NONE)
}
