// The second code of a reference pair, which goes by what the first wrote.
ghost use Rattle.std.specs.Prelude.{◌≡◌, ◌<◌};
ghost use Rattle.chip.specs.State.{at};
ghost use Rattle.chip.specs.Memory.{put_of};
ghost use Rattle.registers.specs.Registers.{bank_of, register_at, pair_of};
ghost use Rattle.postincrement.specs.Pairs.{then_step_reg, then_increment_pair};

use super::seen;
use chip::{Cpu, DataMemory, locations, memory, pick};
use effects::{Effect, NO_SKIP, NONE, SKIP_NEXT, doing};

fn seen_bank(mem: &DataMemory, x: u16, srb: u8) -> u8
    ensures { (result ≡ bank_of (put_of mem.now x) srb) × (result < 4) }
{
    pick(seen(mem, x, locations::STATUS) % 2 == 1, srb % 4, 0)
}

// A register's place as it is after the write x.
#[tactic(auto, unfolding(registers::specs::Registers::register_at))]
fn seen_register_at(mem: &DataMemory, x: u16, srb: u8, r: u8) -> u16
    ensures { (result ≡ register_at (put_of mem.now x) srb r) × (result < 32) }
{
    8 * (seen_bank(mem, x, srb) as u16) + (r as u16) % 8
}

#[tactic(auto, unfolding(crate::specs::Pairs::then_step_reg))]
pub fn then_step_reg(mem: &DataMemory, c: Cpu, n: u16, x: u16, r: u8, last: u8, by: u8) -> Effect
    requires { by < 16 }
    ensures { result ≡ then_step_reg (at mem.now c) n x r last by }
{
    let i = seen_register_at(mem, x, c.srb, r);
    let v = seen(mem, x, i);
    doing(
        c,
        n,
        pick(v == last, SKIP_NEXT, NO_SKIP),
        0,
        x,
        memory::write_to(i, v + by),
        NONE,
        NONE,
    )
}

#[tactic(auto, unfolding(registers::specs::Registers::pair_of))]
fn seen_pair(mem: &DataMemory, x: u16, srb: u8, r: u8) -> u8
    ensures { result ≡ pair_of (put_of mem.now x) srb r }
{
    let low = seen(mem, x, seen_register_at(mem, x, srb, r));
    let high = seen(mem, x, seen_register_at(mem, x, srb, r % 8 + 1));
    low + 16 * high
}

#[tactic(auto, unfolding(crate::specs::Pairs::then_increment_pair))]
pub fn then_increment_pair(mem: &DataMemory, c: Cpu, n: u16, x: u16, r: u8) -> Effect
    ensures { result ≡ then_increment_pair (at mem.now c) n x r }
{
    let v = seen_pair(mem, x, c.srb, r);
    let next = (v as u16) + 1;
    let i = seen_register_at(mem, x, c.srb, r);
    let j = seen_register_at(mem, x, c.srb, r % 8 + 1);
    doing(
        c,
        n,
        pick(next < 256, NO_SKIP, SKIP_NEXT),
        0,
        x,
        memory::write_to(i, (next % 16) as u8),
        memory::write_to(j, (next / 16 % 16) as u8),
        NONE,
    )
}
