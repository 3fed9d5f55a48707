// A transfer and then a step of the register that stands after it: LDI, LDD, XCHI and XCHD, and the pairs of a reference. n is the address after the instruction.
#![tactic(auto)]

ghost use Rattle.std.specs.Prelude.{◌≡◌, ◌<◌};
ghost use Rattle.chip.specs.State.{at, nib_at, nibbles};
ghost use Rattle.chip.specs.Memory.{put_of};
ghost use Rattle.postincrement.specs.Postincrement.{load_step, exchange_step};

use chip::{Cpu, DataMemory, memory, pick};
use effects::operands::{read4_in, reg_in, to_reg};
use effects::{Effect, NO_SKIP, NONE, SKIP_NEXT, doing};
use rights::Width;

pub mod pairs;

// A nibble as it is after the write x.
pub fn seen(mem: &DataMemory, x: u16, i: u16) -> u8
    requires { i < nibbles }
    ensures { result ≡ nib_at (put_of mem.now x) i }
{
    if x / 16 == i {
        (x % 16) as u8
    } else {
        memory::nib(mem, i)
    }
}

// A nibble as it is after the writes x and y.
pub fn seen_after(mem: &DataMemory, x: u16, y: u16, i: u16) -> u8
    requires { i < nibbles }
    ensures { result ≡ nib_at (put_of (put_of mem.now x) y) i }
{
    if y / 16 == i {
        (y % 16) as u8
    } else {
        seen(mem, x, i)
    }
}

// L is stepped as it stands after the load.
#[tactic(auto, unfolding(crate::specs::Postincrement::load_step))]
pub fn load_step(mem: &DataMemory, c: Cpu, n: u16, a: u16, last: u8, by: u8) -> Effect
    requires { by < 16 }
    ensures { result ≡ load_step (at mem.now c) n a last by }
{
    let x = to_reg(mem, c, 0, read4_in(mem, c, a));
    let l = seen(mem, x, registers::register_at(mem, c.srb, 2));
    doing(
        c,
        n,
        pick(l == last, SKIP_NEXT, NO_SKIP),
        0,
        x,
        to_reg(mem, c, 2, l + by),
        NONE,
        NONE,
    )
}

// L is stepped as it stands after the exchange.
#[tactic(auto, unfolding(crate::specs::Postincrement::exchange_step))]
pub fn exchange_step(mem: &DataMemory, c: Cpu, n: u16, a: u16, last: u8, by: u8) -> Effect
    requires { by < 16 }
    ensures { result ≡ exchange_step (at mem.now c) n a last by }
{
    let x = to_reg(mem, c, 0, read4_in(mem, c, a));
    let y = memory::write(Width::Four, a, reg_in(mem, c, 0));
    let l = seen_after(mem, x, y, registers::register_at(mem, c.srb, 2));
    doing(
        c,
        n,
        pick(l == last, SKIP_NEXT, NO_SKIP),
        0,
        x,
        y,
        to_reg(mem, c, 2, l + by),
        NONE,
    )
}
