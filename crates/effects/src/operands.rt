// The operands that instructions name.
ghost use Rattle.std.specs.Prelude.{◌≡◌, ◌<◌};
ghost use Rattle.chip.specs.State.{at};
ghost use Rattle.effects.specs.Operands.{reg_in, pair_in, to_reg, direct_in, hl_in, pointed_in, read4_in, half_in, read8_in};

use chip::{Cpu, DataMemory, memory};
use registers::addresses;
use rights::Width;

pub fn reg_in(mem: &DataMemory, c: Cpu, r: u8) -> u8
    ensures { result ≡ reg_in (at mem.now c) r }
{
    registers::register(mem, c.srb, r)
}

pub fn pair_in(mem: &DataMemory, c: Cpu, r: u8) -> u8
    ensures { result ≡ pair_in (at mem.now c) r }
{
    registers::pair(mem, c.srb, r)
}

pub fn to_reg(mem: &DataMemory, c: Cpu, r: u8, x: u8) -> u16
    ensures { result ≡ to_reg (at mem.now c) r x }
{
    registers::register_write(mem, c.srb, r, x)
}

pub fn direct_in(mem: &DataMemory, c: Cpu, da: u8) -> u16
    ensures { result ≡ direct_in (at mem.now c) da }
{
    addresses::direct(mem, c.smb, da)
}

pub fn hl_in(mem: &DataMemory, c: Cpu) -> u16
    ensures { result ≡ hl_in (at mem.now c) }
{
    addresses::hl(mem, c.smb, c.srb)
}

// @RRa: 5 @HL, 6 @WX, 7 @WL.
#[tactic(auto, unfolding(crate::specs::Operands::pointed_in))]
pub fn pointed_in(mem: &DataMemory, c: Cpu, i: u8) -> u16
    ensures { result ≡ pointed_in (at mem.now c) i }
{
    if i == 5 {
        hl_in(mem, c)
    } else if i == 6 {
        addresses::wx(mem, c.srb)
    } else {
        addresses::wl(mem, c.srb)
    }
}

pub fn read4_in(mem: &DataMemory, c: Cpu, a: u16) -> u8
    ensures { (result ≡ read4_in (at mem.now c) a) × (result < 16) }
{
    memory::read(mem, c.pins, Width::Four, a)
}

// The half of an 8-bit access at an address.
pub fn half_in(mem: &DataMemory, c: Cpu, a: u16) -> u8
    ensures { (result ≡ half_in (at mem.now c) a) × (result < 16) }
{
    memory::read(mem, c.pins, Width::Eight, a)
}

// An 8-bit read; the address's low bit is dropped.
#[tactic(auto, unfolding(crate::specs::Operands::read8_in))]
pub fn read8_in(mem: &DataMemory, c: Cpu, a: u16) -> u8
    ensures { result ≡ read8_in (at mem.now c) a }
{
    let even = a / 2 * 2;
    half_in(mem, c, even) % 16 + 16 * (half_in(mem, c, even + 1) % 16)
}
