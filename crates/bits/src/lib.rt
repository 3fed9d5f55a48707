// Bit manipulation. n is the address after the instruction.
#![tactic(auto)]

ghost use Rattle.std.specs.Prelude.{◌≡◌, ◌<◌, ◌≤◌};
ghost use Rattle.chip.specs.State.{at};
ghost use Rattle.bits.specs.Bits.{spot_of, bit_in, set_bit, test_clear, set_carry};

use chip::{Cpu, DataMemory, memory, pick};
use codes::Place;
use effects::operands::direct_in;
use effects::{Effect, NO_SKIP, NONE, SKIP_NEXT, Spot, doing};
use registers::addresses;

// The address and the bit that a place names.
#[tactic(auto, unfolding(crate::specs::Bits::spot_of))]
pub fn spot_of(mem: &DataMemory, c: Cpu, p: Place) -> Spot
    ensures { (result ≡ spot_of (at mem.now c) p) × (result.bit < 4) }
{
    match p {
        Place::Da(a, b) => Spot {
            address: direct_in(mem, c, a),
            bit: b % 4,
        },
        Place::Mema(a, b) => Spot {
            address: addresses::mema(a),
            bit: b % 4,
        },
        Place::Memb(a) => Spot {
            address: addresses::memb(mem, c.srb, a),
            bit: addresses::memb_bit(mem, c.srb),
        },
        Place::Hda(a, b) => Spot {
            address: addresses::hda(mem, c.smb, c.srb, a),
            bit: b % 4,
        },
    }
}

pub fn bit_in(mem: &DataMemory, c: Cpu, x: Spot) -> u8
    requires { x.bit < 4 }
    ensures { (result ≡ bit_in (at mem.now c) x) × (result ≤ 1) }
{
    memory::read_bit(mem, c.pins, x.address, x.bit)
}

#[tactic(auto, unfolding(crate::specs::Bits::set_bit))]
pub fn set_bit(mem: &DataMemory, c: Cpu, n: u16, x: Spot, v: u8) -> Effect
    ensures { result ≡ set_bit (at mem.now c) n x v }
{
    doing(
        c,
        n,
        NO_SKIP,
        0,
        memory::write_bit(mem, x.address, x.bit, v),
        NONE,
        NONE,
        NONE,
    )
}

#[tactic(auto, unfolding(crate::specs::Bits::test_clear))]
pub fn test_clear(mem: &DataMemory, c: Cpu, n: u16, x: Spot) -> Effect
    requires { x.bit < 4 }
    ensures { result ≡ test_clear (at mem.now c) n x }
{
    let v = bit_in(mem, c, x);
    let w = pick(v == 1, memory::write_bit(mem, x.address, x.bit, 0), NONE);
    doing(
        c,
        n,
        pick(v == 1, SKIP_NEXT, NO_SKIP),
        0,
        w,
        NONE,
        NONE,
        NONE,
    )
}

#[tactic(auto, unfolding(crate::specs::Bits::set_carry))]
pub fn set_carry(mem: &DataMemory, c: Cpu, n: u16, v: u8) -> Effect
    requires { v ≤ 1 }
    ensures { result ≡ set_carry (at mem.now c) n v }
{
    doing(
        c,
        n,
        NO_SKIP,
        0,
        registers::carry_write(mem, v),
        NONE,
        NONE,
        NONE,
    )
}
