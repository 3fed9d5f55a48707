// PUSH and POP. n is the address after the instruction.
#![tactic(auto)]

ghost use Rattle.std.specs.Prelude.{◌≡◌, ◌<◌};
ghost use Rattle.chip.specs.State.{at};
ghost use Rattle.stack.specs.Stack.{push_two, push_pair, push_sb, pop_pair, pop_sb};

use chip::{Cpu, DataMemory, memory};
use effects::operands::{reg_in, to_reg};
use effects::{Effect, NO_SKIP, doing, selecting};

fn push_two(c: Cpu, n: u16, s: u16, low: u8, high: u8) -> Effect
    requires { s < 256 }
    ensures { result ≡ push_two c n s low high }
{
    doing(
        c,
        n,
        NO_SKIP,
        0,
        memory::write_to(registers::stack_at(s, 0), low),
        memory::write_to(registers::stack_at(s, 1), high),
        registers::sp_low(s),
        registers::sp_high(s),
    )
}

#[tactic(auto, unfolding(crate::specs::Stack::push_pair))]
pub fn push_pair(mem: &DataMemory, c: Cpu, n: u16, r: u8) -> Effect
    ensures { result ≡ push_pair (at mem.now c) n r }
{
    let s = (registers::sp(mem) + 254) % 256;
    push_two(c, n, s, reg_in(mem, c, r), reg_in(mem, c, r % 8 + 1))
}

#[tactic(auto, unfolding(crate::specs::Stack::push_sb))]
pub fn push_sb(mem: &DataMemory, c: Cpu, n: u16) -> Effect
    ensures { result ≡ push_sb (at mem.now c) n }
{
    let s = (registers::sp(mem) + 254) % 256;
    push_two(c, n, s, c.srb, c.smb)
}

#[tactic(auto, unfolding(crate::specs::Stack::pop_pair))]
pub fn pop_pair(mem: &DataMemory, c: Cpu, n: u16, r: u8) -> Effect
    ensures { result ≡ pop_pair (at mem.now c) n r }
{
    let s = registers::sp(mem);
    let low = memory::nib(mem, registers::stack_at(s, 0));
    let high = memory::nib(mem, registers::stack_at(s, 1));
    doing(
        c,
        n,
        NO_SKIP,
        0,
        to_reg(mem, c, r, low),
        to_reg(mem, c, r % 8 + 1, high),
        registers::sp_low(s + 2),
        registers::sp_high(s + 2),
    )
}

#[tactic(auto, unfolding(crate::specs::Stack::pop_sb))]
pub fn pop_sb(mem: &DataMemory, c: Cpu, n: u16) -> Effect
    ensures { result ≡ pop_sb (at mem.now c) n }
{
    let s = registers::sp(mem);
    let srb = memory::nib(mem, registers::stack_at(s, 0)) % 4;
    let smb = memory::nib(mem, registers::stack_at(s, 1));
    selecting(
        n,
        smb,
        srb,
        c.mode,
        registers::sp_low(s + 2),
        registers::sp_high(s + 2),
    )
}
