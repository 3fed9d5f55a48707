// Arithmetic and compare. A sum or difference comes with one digit more. n is the address after the instruction.
#![tactic(auto)]

ghost use Rattle.std.specs.Prelude.{◌≡◌, [], ◌∷◌, ◌<◌};
ghost use Rattle.chip.specs.State.{at};
ghost use Rattle.effects.specs.Effects.{doing};
ghost use Rattle.arithmetic.specs.Arithmetic.{skip_if, add_carry_a, sub_carry_a, add_skip_a, add_im_a, sub_skip_a, to_pair, add_carry_pair, sub_carry_pair, add_skip_pair, sub_skip_pair, step_reg, increment_at};

use chip::{Cpu, DataMemory, memory, pick};
use effects::operands::{read4_in, reg_in, to_reg};
use effects::{Effect, NO_SKIP, NONE, SKIP_ADS, SKIP_NEXT, doing};
use rights::Width;

#[tactic(auto, unfolding(crate::specs::Arithmetic::skip_if))]
pub fn skip_if(c: Cpu, n: u16, b: bool) -> Effect
    ensures { result ≡ skip_if c n b }
{
    doing(c, n, pick(b, SKIP_NEXT, NO_SKIP), 0, NONE, NONE, NONE, NONE)
}

#[tactic(auto, unfolding(crate::specs::Arithmetic::add_carry_a))]
pub fn add_carry_a(mem: &DataMemory, c: Cpu, n: u16, s: u8) -> Effect
    requires { s < 32 }
    ensures { result ≡ add_carry_a (at mem.now c) n s }
{
    doing(
        c,
        n,
        pick(s < 16, NO_SKIP, SKIP_ADS),
        3,
        to_reg(mem, c, 0, s),
        registers::carry_write(mem, s / 16),
        NONE,
        NONE,
    )
}

#[tactic(auto, unfolding(crate::specs::Arithmetic::sub_carry_a))]
pub fn sub_carry_a(mem: &DataMemory, c: Cpu, n: u16, d: u8) -> Effect
    requires { d < 32 }
    ensures { result ≡ sub_carry_a (at mem.now c) n d }
{
    doing(
        c,
        n,
        pick(d < 16, NO_SKIP, SKIP_ADS),
        3,
        to_reg(mem, c, 0, d),
        registers::carry_write(mem, 1 - d / 16),
        NONE,
        NONE,
    )
}

#[tactic(auto, unfolding(crate::specs::Arithmetic::add_skip_a))]
pub fn add_skip_a(mem: &DataMemory, c: Cpu, n: u16, s: u8) -> Effect
    ensures { result ≡ add_skip_a (at mem.now c) n s }
{
    doing(
        c,
        n,
        pick(s < 16, NO_SKIP, SKIP_NEXT),
        0,
        to_reg(mem, c, 0, s),
        NONE,
        NONE,
        NONE,
    )
}

#[tactic(auto, unfolding(crate::specs::Arithmetic::add_im_a))]
pub fn add_im_a(mem: &DataMemory, c: Cpu, n: u16, s: u8) -> Effect
    ensures { result ≡ add_im_a (at mem.now c) n s }
{
    doing(
        c,
        n,
        pick(c.effect == 3, NO_SKIP, pick(s < 16, NO_SKIP, SKIP_NEXT)),
        0,
        to_reg(mem, c, 0, s),
        NONE,
        NONE,
        NONE,
    )
}

#[tactic(auto, unfolding(crate::specs::Arithmetic::sub_skip_a))]
pub fn sub_skip_a(mem: &DataMemory, c: Cpu, n: u16, d: u8) -> Effect
    ensures { result ≡ sub_skip_a (at mem.now c) n d }
{
    doing(
        c,
        n,
        pick(d < 16, SKIP_NEXT, NO_SKIP),
        0,
        to_reg(mem, c, 0, d),
        NONE,
        NONE,
        NONE,
    )
}

fn pair_to(mem: &DataMemory, c: Cpu, n: u16, skip: u8, r: u8, v: u16, w: u16) -> Effect
    ensures { result ≡ doing c n skip 0 (to_pair (at mem.now c) r v (w ∷ [])) }
{
    doing(
        c,
        n,
        skip,
        0,
        to_reg(mem, c, r, (v % 16) as u8),
        to_reg(mem, c, r % 8 + 1, (v / 16 % 16) as u8),
        w,
        NONE,
    )
}

#[tactic(auto, unfolding(crate::specs::Arithmetic::add_carry_pair))]
pub fn add_carry_pair(mem: &DataMemory, c: Cpu, n: u16, r: u8, s: u16) -> Effect
    requires { s < 512 }
    ensures { result ≡ add_carry_pair (at mem.now c) n r s }
{
    pair_to(
        mem,
        c,
        n,
        NO_SKIP,
        r,
        s,
        registers::carry_write(mem, (s / 256) as u8),
    )
}

#[tactic(auto, unfolding(crate::specs::Arithmetic::sub_carry_pair))]
pub fn sub_carry_pair(mem: &DataMemory, c: Cpu, n: u16, r: u8, d: u16) -> Effect
    requires { d < 512 }
    ensures { result ≡ sub_carry_pair (at mem.now c) n r d }
{
    pair_to(
        mem,
        c,
        n,
        NO_SKIP,
        r,
        d,
        registers::carry_write(mem, (1 - d / 256) as u8),
    )
}

#[tactic(auto, unfolding(crate::specs::Arithmetic::add_skip_pair))]
pub fn add_skip_pair(mem: &DataMemory, c: Cpu, n: u16, r: u8, s: u16) -> Effect
    ensures { result ≡ add_skip_pair (at mem.now c) n r s }
{
    pair_to(mem, c, n, pick(s < 256, NO_SKIP, SKIP_NEXT), r, s, NONE)
}

#[tactic(auto, unfolding(crate::specs::Arithmetic::sub_skip_pair))]
pub fn sub_skip_pair(mem: &DataMemory, c: Cpu, n: u16, r: u8, d: u16) -> Effect
    ensures { result ≡ sub_skip_pair (at mem.now c) n r d }
{
    pair_to(mem, c, n, pick(d < 256, SKIP_NEXT, NO_SKIP), r, d, NONE)
}

// INCS and DECS of a register.
#[tactic(auto, unfolding(crate::specs::Arithmetic::step_reg))]
pub fn step_reg(mem: &DataMemory, c: Cpu, n: u16, r: u8, last: u8, by: u8) -> Effect
    requires { by < 16 }
    ensures { result ≡ step_reg (at mem.now c) n r last by }
{
    let v = reg_in(mem, c, r);
    doing(
        c,
        n,
        pick(v == last, SKIP_NEXT, NO_SKIP),
        0,
        to_reg(mem, c, r, v + by),
        NONE,
        NONE,
        NONE,
    )
}

#[tactic(auto, unfolding(crate::specs::Arithmetic::increment_at))]
pub fn increment_at(mem: &DataMemory, c: Cpu, n: u16, a: u16) -> Effect
    ensures { result ≡ increment_at (at mem.now c) n a }
{
    let v = read4_in(mem, c, a);
    doing(
        c,
        n,
        pick(v == 15, SKIP_NEXT, NO_SKIP),
        0,
        memory::write(Width::Four, a, (v + 1) % 16),
        NONE,
        NONE,
        NONE,
    )
}
