// Reads and writes of the data memory. A write is made as a number, and stored when the step commits.
ghost use Rattle.std.specs.Prelude.{◌≡◌, ◌<◌, ◌≤◌, length, set};
ghost use Rattle.chip.specs.State.{nibbles, nib_at, slot_of, wrap_of};
ghost use Rattle.chip.specs.Memory.{raw_of, read_of, read_bit_of, write_to, put_of, write_of, bit_at, mask_at, with_bit, write_bit_of};

use super::locations::RAM;
use super::{DataMemory, Machine, pick, ports};
use rights::{Width, rights_at};

// A write that is dropped: its index is past the nibbles.
pub const DROPPED: u16 = 0xFFF0;

pub fn nib(mem: &DataMemory, i: u16) -> u8
    requires { i < nibbles }
    ensures { result ≡ nib_at mem.now i }
{
    mem[i as usize] % 16
}

// The index of a data address.
pub fn slot(a: u16) -> u16
    ensures { (result ≡ slot_of a) × (result < nibbles) }
{
    if a < RAM { a } else { a % 128 + RAM }
}

// A code address modulo the ROM's length.
pub fn wrap(n: usize, p: u16) -> u16
    ensures { result ≡ wrap_of n p }
{
    if n == Machine::ROM_0504 {
        p % 4096
    } else {
        p % 2048
    }
}

// What stands at an address of bank 15, before rights.
#[tactic(auto, unfolding(crate::specs::Memory::raw_of))]
fn raw(mem: &DataMemory, pins: u32, a: u16) -> u8
    ensures { result ≡ raw_of mem.now pins a }
{
    if a < 0xFF0 {
        nib(mem, slot(a))
    } else if a < 0xFF7 {
        ports::port(mem, pins, a - 0xFF0)
    } else {
        nib(mem, slot(a))
    }
}

#[tactic(auto, unfolding(crate::specs::Memory::read_of))]
pub fn read(mem: &DataMemory, pins: u32, w: Width, a: u16) -> u8
    ensures { (result ≡ read_of mem.now pins w a) × (result < 16) }
{
    if a < RAM {
        nib(mem, a)
    } else {
        raw(mem, pins, a) & rights::readable(w, rights_at(a))
    }
}

#[tactic(auto, unfolding(crate::specs::Memory::read_bit_of))]
pub fn read_bit(mem: &DataMemory, pins: u32, a: u16, k: u8) -> u8
    requires { k < 4 }
    ensures { (result ≡ read_bit_of mem.now pins a k) × (result ≤ 1) }
{
    (read(mem, pins, Width::One, a) >> k) % 2
}

pub fn write_to(i: u16, v: u8) -> u16
    ensures { result ≡ write_to i v }
{
    i % 4096 * 16 + (v as u16) % 16
}

// A write of 4 bits, or of one half of 8 bits.
#[tactic(auto, unfolding(crate::specs::Memory::write_of))]
pub fn write(w: Width, a: u16, v: u8) -> u16
    ensures { result ≡ write_of w a v }
{
    if a < RAM {
        return write_to(a, v);
    }
    let k = rights_at(a);
    if rights::writable(w, k) == 0 {
        DROPPED
    } else {
        write_to(slot(a), v & rights::reach(w, k))
    }
}

pub fn bit_at(k: u8) -> u8
    ensures { result ≡ bit_at k }
{
    pick(k == 0, 1, pick(k == 1, 2, pick(k == 2, 4, 8)))
}

// Every bit but k.
pub fn mask_at(k: u8) -> u8
    ensures { result ≡ mask_at k }
{
    pick(k == 0, 14, pick(k == 1, 13, pick(k == 2, 11, 7)))
}

// The nibble n with bit k made v.
pub fn with_bit(n: u8, k: u8, v: u8) -> u8
    ensures { result ≡ with_bit n k v }
{
    if v == 1 {
        n | bit_at(k)
    } else {
        n & mask_at(k)
    }
}

#[tactic(auto, unfolding(crate::specs::Memory::write_bit_of))]
pub fn write_bit(mem: &DataMemory, a: u16, k: u8, v: u8) -> u16
    ensures { result ≡ write_bit_of mem.now a k v }
{
    if a < RAM {
        return write_to(a, with_bit(nib(mem, a), k, v));
    }
    let t = rights_at(a);
    if rights::writable(Width::One, t) & ((t % 16) as u8) & bit_at(k) == 0 {
        DROPPED
    } else {
        let i = slot(a);
        write_to(i, with_bit(nib(mem, i), k, v))
    }
}

// Stores a write.
pub fn put(mem: &mut DataMemory, x: u16)
    ensures { mem.new ≡ put_of mem.old x }
{
    let i = x / 16;
    if (i as usize) < Machine::NIBBLES {
        put_at(mem, i, (x % 16) as u8);
    }
}

pub fn put_at(mem: &mut DataMemory, i: u16, v: u8)
    requires { i < nibbles }
    ensures { mem.new ≡ set mem.old i v }
{
    mem[i as usize] = v;
}
