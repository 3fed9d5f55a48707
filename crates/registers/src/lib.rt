// Working registers, the program status word and the stack pointer.
#![tactic(auto)]

ghost use Rattle.std.specs.Prelude.{◌≡◌, ◌<◌, ◌≤◌};
ghost use Rattle.registers.specs.Registers.{bank_of, register_at, register_of, pair_of, register_write, emb_of, carry_of, carry_write, sp_of, stack_at, sp_low, sp_high};

use chip::memory::{nib, write_to};
use chip::{DataMemory, locations, pick};

pub mod addresses;

// The bank of the working registers.
pub fn bank(mem: &DataMemory, srb: u8) -> u8
    ensures { (result ≡ bank_of mem.now srb) × (result < 4) }
{
    pick(nib(mem, locations::STATUS) % 2 == 1, srb % 4, 0)
}

#[tactic(auto, unfolding(crate::specs::Registers::register_at))]
pub fn register_at(mem: &DataMemory, srb: u8, r: u8) -> u16
    ensures { (result ≡ register_at mem.now srb r) × (result < 32) }
{
    8 * (bank(mem, srb) as u16) + (r as u16) % 8
}

pub fn register(mem: &DataMemory, srb: u8, r: u8) -> u8
    ensures { result ≡ register_of mem.now srb r }
{
    nib(mem, register_at(mem, srb, r))
}

// A pair by its low register: EA 0, HL 2, WX 4, YZ 6.
#[tactic(auto, unfolding(crate::specs::Registers::pair_of))]
pub fn pair(mem: &DataMemory, srb: u8, r: u8) -> u8
    ensures { result ≡ pair_of mem.now srb r }
{
    register(mem, srb, r) + 16 * register(mem, srb, r % 8 + 1)
}

pub fn register_write(mem: &DataMemory, srb: u8, r: u8, v: u8) -> u16
    ensures { result ≡ register_write mem.now srb r v }
{
    write_to(register_at(mem, srb, r), v)
}

pub fn emb(mem: &DataMemory) -> u8
    ensures { result ≡ emb_of mem.now }
{
    nib(mem, locations::STATUS) / 2 % 2
}

pub fn carry(mem: &DataMemory) -> u8
    ensures { result ≡ carry_of mem.now }
{
    nib(mem, locations::CARRY) / 8
}

// The write that makes the carry flag v.
pub fn carry_write(mem: &DataMemory, v: u8) -> u16
    requires { v ≤ 1 }
    ensures { result ≡ carry_write mem.now v }
{
    write_to(locations::CARRY, nib(mem, locations::CARRY) % 8 + 8 * v)
}

pub fn sp(mem: &DataMemory) -> u16
    ensures { (result ≡ sp_of mem.now) × (result < 256) }
{
    (nib(mem, locations::SP_LOW) as u16) + 16 * (nib(mem, locations::SP_HIGH) as u16)
}

// A stack address: an offset of the stack pointer modulo 256.
pub fn stack_at(s: u16, k: u16) -> u16
    requires { (s < 1000) × (k < 1000) }
    ensures { (result ≡ stack_at s k) × (result < 256) }
{
    (s + k) % 256
}

pub fn sp_low(s: u16) -> u16
    ensures { result ≡ sp_low s }
{
    write_to(locations::SP_LOW, (s / 2 % 8 * 2) as u8)
}

pub fn sp_high(s: u16) -> u16
    ensures { result ≡ sp_high s }
{
    write_to(locations::SP_HIGH, (s / 16 % 16) as u8)
}
