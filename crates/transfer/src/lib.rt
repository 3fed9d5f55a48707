// Data transfer: loads, stores, exchanges and RRC. n is the address after the instruction.
#![tactic(auto)]

ghost use Rattle.std.specs.Prelude.{◌≡◌};
ghost use Rattle.chip.specs.State.{at};
ghost use Rattle.transfer.specs.Transfer.{set_reg, set_pair, group_of, ignored, load_im, load_imm, load_a, store_a, load_ea, store_ea, exchange_a, exchange_ea, exchange_reg, exchange_pair, rotate_a};

use chip::{Cpu, DataMemory, memory, pick};
use effects::operands::{half_in, read4_in, reg_in, to_reg};
use effects::{Effect, NO_SKIP, NONE, doing};
use rights::Width;

#[tactic(auto, unfolding(crate::specs::Transfer::set_reg))]
pub fn set_reg(mem: &DataMemory, c: Cpu, n: u16, r: u8, v: u8) -> Effect
    ensures { result ≡ set_reg (at mem.now c) n r v }
{
    doing(c, n, NO_SKIP, 0, to_reg(mem, c, r, v), NONE, NONE, NONE)
}

#[tactic(auto, unfolding(crate::specs::Transfer::set_pair))]
pub fn set_pair(mem: &DataMemory, c: Cpu, n: u16, r: u8, v: u8) -> Effect
    ensures { result ≡ set_pair (at mem.now c) n r v }
{
    doing(
        c,
        n,
        NO_SKIP,
        0,
        to_reg(mem, c, r, v),
        to_reg(mem, c, r % 8 + 1, v / 16),
        NONE,
        NONE,
    )
}

fn group_of(r: u8) -> u8
    ensures { result ≡ group_of r }
{
    pick(r == 0, 1, pick(r == 2, 2, 0))
}

// Whether a load of a group does nothing.
fn is_ignored(effect: u8, group: u8) -> bool
    ensures { result ≡ ignored effect group }
{
    if group == 0 { false } else { effect == group }
}

// LD A,#im: does nothing under effect 1.
#[tactic(auto, unfolding(crate::specs::Transfer::load_im))]
pub fn load_im(mem: &DataMemory, c: Cpu, n: u16, v: u8) -> Effect
    ensures { result ≡ load_im (at mem.now c) n v }
{
    let w = pick(c.effect == 1, NONE, to_reg(mem, c, 0, v));
    doing(c, n, NO_SKIP, 1, w, NONE, NONE, NONE)
}

// LD RR,#imm: does nothing under its group's effect.
#[tactic(auto, unfolding(crate::specs::Transfer::load_imm))]
pub fn load_imm(mem: &DataMemory, c: Cpu, n: u16, r: u8, v: u8) -> Effect
    ensures { result ≡ load_imm (at mem.now c) n r v }
{
    let group = group_of(r);
    let b = is_ignored(c.effect, group);
    let low = pick(b, NONE, to_reg(mem, c, r, v));
    let high = pick(b, NONE, to_reg(mem, c, r % 8 + 1, v / 16));
    doing(c, n, NO_SKIP, group, low, high, NONE, NONE)
}

#[tactic(auto, unfolding(crate::specs::Transfer::load_a))]
pub fn load_a(mem: &DataMemory, c: Cpu, n: u16, a: u16) -> Effect
    ensures { result ≡ load_a (at mem.now c) n a }
{
    set_reg(mem, c, n, 0, read4_in(mem, c, a))
}

#[tactic(auto, unfolding(crate::specs::Transfer::store_a))]
pub fn store_a(mem: &DataMemory, c: Cpu, n: u16, a: u16) -> Effect
    ensures { result ≡ store_a (at mem.now c) n a }
{
    doing(
        c,
        n,
        NO_SKIP,
        0,
        memory::write(Width::Four, a, reg_in(mem, c, 0)),
        NONE,
        NONE,
        NONE,
    )
}

#[tactic(auto, unfolding(crate::specs::Transfer::load_ea))]
pub fn load_ea(mem: &DataMemory, c: Cpu, n: u16, a: u16) -> Effect
    ensures { result ≡ load_ea (at mem.now c) n a }
{
    let even = a / 2 * 2;
    doing(
        c,
        n,
        NO_SKIP,
        0,
        to_reg(mem, c, 0, half_in(mem, c, even)),
        to_reg(mem, c, 1, half_in(mem, c, even + 1)),
        NONE,
        NONE,
    )
}

#[tactic(auto, unfolding(crate::specs::Transfer::store_ea))]
pub fn store_ea(mem: &DataMemory, c: Cpu, n: u16, a: u16) -> Effect
    ensures { result ≡ store_ea (at mem.now c) n a }
{
    let even = a / 2 * 2;
    doing(
        c,
        n,
        NO_SKIP,
        0,
        memory::write(Width::Eight, even, reg_in(mem, c, 0)),
        memory::write(Width::Eight, even + 1, reg_in(mem, c, 1)),
        NONE,
        NONE,
    )
}

#[tactic(auto, unfolding(crate::specs::Transfer::exchange_a))]
pub fn exchange_a(mem: &DataMemory, c: Cpu, n: u16, a: u16) -> Effect
    ensures { result ≡ exchange_a (at mem.now c) n a }
{
    doing(
        c,
        n,
        NO_SKIP,
        0,
        to_reg(mem, c, 0, read4_in(mem, c, a)),
        memory::write(Width::Four, a, reg_in(mem, c, 0)),
        NONE,
        NONE,
    )
}

#[tactic(auto, unfolding(crate::specs::Transfer::exchange_ea))]
pub fn exchange_ea(mem: &DataMemory, c: Cpu, n: u16, a: u16) -> Effect
    ensures { result ≡ exchange_ea (at mem.now c) n a }
{
    let even = a / 2 * 2;
    doing(
        c,
        n,
        NO_SKIP,
        0,
        to_reg(mem, c, 0, half_in(mem, c, even)),
        to_reg(mem, c, 1, half_in(mem, c, even + 1)),
        memory::write(Width::Eight, even, reg_in(mem, c, 0)),
        memory::write(Width::Eight, even + 1, reg_in(mem, c, 1)),
    )
}

#[tactic(auto, unfolding(crate::specs::Transfer::exchange_reg))]
pub fn exchange_reg(mem: &DataMemory, c: Cpu, n: u16, r: u8) -> Effect
    ensures { result ≡ exchange_reg (at mem.now c) n r }
{
    doing(
        c,
        n,
        NO_SKIP,
        0,
        to_reg(mem, c, 0, reg_in(mem, c, r)),
        to_reg(mem, c, r, reg_in(mem, c, 0)),
        NONE,
        NONE,
    )
}

#[tactic(auto, unfolding(crate::specs::Transfer::exchange_pair))]
pub fn exchange_pair(mem: &DataMemory, c: Cpu, n: u16, r: u8) -> Effect
    ensures { result ≡ exchange_pair (at mem.now c) n r }
{
    let high = r % 8 + 1;
    doing(
        c,
        n,
        NO_SKIP,
        0,
        to_reg(mem, c, 0, reg_in(mem, c, r)),
        to_reg(mem, c, 1, reg_in(mem, c, high)),
        to_reg(mem, c, r, reg_in(mem, c, 0)),
        to_reg(mem, c, high, reg_in(mem, c, 1)),
    )
}

#[tactic(auto, unfolding(crate::specs::Transfer::rotate_a))]
pub fn rotate_a(mem: &DataMemory, c: Cpu, n: u16) -> Effect
    ensures { result ≡ rotate_a (at mem.now c) n }
{
    let a = reg_in(mem, c, 0);
    doing(
        c,
        n,
        NO_SKIP,
        0,
        to_reg(mem, c, 0, a / 2 + 8 * registers::carry(mem)),
        registers::carry_write(mem, a % 2),
        NONE,
        NONE,
    )
}
