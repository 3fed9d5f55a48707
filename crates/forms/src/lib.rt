// Instructions whose operands take several reads. n is the address after the instruction.
#![tactic(auto)]

ghost use Rattle.std.specs.Prelude.{◌≡◌, ◌+◌, ◌-◌, ◌<◌, ◌≤◌, eqb, length};
ghost use Rattle.std.specs.Int.Bits.{bit_and, bit_or, bit_xor};
ghost use Rattle.chip.specs.State.{at, rom0502};
ghost use Rattle.fetch.specs.Fetch.{size_of, code_at};
ghost use Rattle.effects.specs.Operands.{reg_in, pair_in, carry_in, hl_in, read4_in};
ghost use Rattle.transfer.specs.Transfer.{set_reg, set_pair};
ghost use Rattle.arithmetic.specs.Arithmetic.{skip_if, add_carry_a, sub_carry_a, add_skip_a, sub_skip_a, add_carry_pair, sub_carry_pair, add_skip_pair, sub_skip_pair};
ghost use Rattle.bits.specs.Bits.{spot_of, bit_in, set_bit, set_carry};
ghost use Rattle.control.specs.Control.{jump, page_of};
ghost use Rattle.forms.specs.Operations.{both, either, differ};

use chip::{Cpu, DataMemory};
use codes::Place;
use effects::Effect;
use effects::operands::{hl_in, pair_in, read4_in, reg_in};
use fetch::{Origin, byte_at};

// The nibble at @HL.
pub fn at_hl(mem: &DataMemory, c: Cpu) -> u8
    ensures { (result ≡ read4_in (at mem.now c) (hl_in (at mem.now c))) × (result < 16) }
{
    read4_in(mem, c, hl_in(mem, c))
}

pub fn compare_a(mem: &DataMemory, c: Cpu, n: u16, v: u8) -> Effect
    ensures { result ≡ skip_if c n (eqb (reg_in (at mem.now c) 0) v) }
{
    arithmetic::skip_if(c, n, reg_in(mem, c, 0) == v)
}

pub fn compare_ea(mem: &DataMemory, c: Cpu, n: u16, v: u8) -> Effect
    ensures { result ≡ skip_if c n (eqb (pair_in (at mem.now c) 0) v) }
{
    arithmetic::skip_if(c, n, pair_in(mem, c, 0) == v)
}

// JR @WX and JR @EA, r the pair.
pub fn jump_page(mem: &DataMemory, c: Cpu, n: u16, r: u8) -> Effect
    ensures { result ≡ jump c (page_of n (pair_in (at mem.now c) r)) }
{
    control::jump_to(c, control::page(n, pair_in(mem, c, r)))
}

// LDC EA,@WX and LDC EA,@EA, r the pair.
pub fn load_code(origin: Origin, code: &[u8], mem: &DataMemory, c: Cpu, n: u16, r: u8) -> Effect
    requires { rom0502 ≤ size_of origin (length code.now) }
    ensures { result ≡ set_pair (at mem.now c) n 0 (code_at origin code.now (page_of n (pair_in (at mem.now c) r))).b0 }
{
    transfer::set_pair(
        mem,
        c,
        n,
        0,
        byte_at(origin, code, control::page(n, pair_in(mem, c, r))),
    )
}

pub fn and_a(mem: &DataMemory, c: Cpu, n: u16, v: u8) -> Effect
    ensures { result ≡ set_reg (at mem.now c) n 0 (bit_and (reg_in (at mem.now c) 0) v) }
{
    transfer::set_reg(mem, c, n, 0, reg_in(mem, c, 0) & v)
}

pub fn and_pair(mem: &DataMemory, c: Cpu, n: u16, r: u8, q: u8) -> Effect
    ensures { result ≡ set_pair (at mem.now c) n r (bit_and (pair_in (at mem.now c) r) (pair_in (at mem.now c) q)) }
{
    transfer::set_pair(mem, c, n, r, pair_in(mem, c, r) & pair_in(mem, c, q))
}

pub fn or_a(mem: &DataMemory, c: Cpu, n: u16, v: u8) -> Effect
    ensures { result ≡ set_reg (at mem.now c) n 0 (bit_or (reg_in (at mem.now c) 0) v) }
{
    transfer::set_reg(mem, c, n, 0, reg_in(mem, c, 0) | v)
}

pub fn or_pair(mem: &DataMemory, c: Cpu, n: u16, r: u8, q: u8) -> Effect
    ensures { result ≡ set_pair (at mem.now c) n r (bit_or (pair_in (at mem.now c) r) (pair_in (at mem.now c) q)) }
{
    transfer::set_pair(mem, c, n, r, pair_in(mem, c, r) | pair_in(mem, c, q))
}

pub fn xor_a(mem: &DataMemory, c: Cpu, n: u16, v: u8) -> Effect
    ensures { result ≡ set_reg (at mem.now c) n 0 (bit_xor (reg_in (at mem.now c) 0) v) }
{
    transfer::set_reg(mem, c, n, 0, reg_in(mem, c, 0) ^ v)
}

pub fn xor_pair(mem: &DataMemory, c: Cpu, n: u16, r: u8, q: u8) -> Effect
    ensures { result ≡ set_pair (at mem.now c) n r (bit_xor (pair_in (at mem.now c) r) (pair_in (at mem.now c) q)) }
{
    transfer::set_pair(mem, c, n, r, pair_in(mem, c, r) ^ pair_in(mem, c, q))
}

pub fn adc_a(mem: &DataMemory, c: Cpu, n: u16, v: u8) -> Effect
    requires { v < 16 }
    ensures { result ≡ add_carry_a (at mem.now c) n (reg_in (at mem.now c) 0 + v + carry_in (at mem.now c)) }
{
    arithmetic::add_carry_a(mem, c, n, reg_in(mem, c, 0) + v + registers::carry(mem))
}

pub fn sbc_a(mem: &DataMemory, c: Cpu, n: u16, v: u8) -> Effect
    requires { v < 16 }
    ensures { result ≡ sub_carry_a (at mem.now c) n (16 + reg_in (at mem.now c) 0 - v - carry_in (at mem.now c)) }
{
    arithmetic::sub_carry_a(
        mem,
        c,
        n,
        16 + reg_in(mem, c, 0) - v - registers::carry(mem),
    )
}

pub fn ads_a(mem: &DataMemory, c: Cpu, n: u16, v: u8) -> Effect
    requires { v < 16 }
    ensures { result ≡ add_skip_a (at mem.now c) n (reg_in (at mem.now c) 0 + v) }
{
    arithmetic::add_skip_a(mem, c, n, reg_in(mem, c, 0) + v)
}

pub fn sbs_a(mem: &DataMemory, c: Cpu, n: u16, v: u8) -> Effect
    requires { v < 16 }
    ensures { result ≡ sub_skip_a (at mem.now c) n (16 + reg_in (at mem.now c) 0 - v) }
{
    arithmetic::sub_skip_a(mem, c, n, 16 + reg_in(mem, c, 0) - v)
}

pub fn adc_pair(mem: &DataMemory, c: Cpu, n: u16, r: u8, q: u8) -> Effect
    ensures { result ≡ add_carry_pair (at mem.now c) n r (pair_in (at mem.now c) r + pair_in (at mem.now c) q + carry_in (at mem.now c)) }
{
    let s = u16::from(pair_in(mem, c, r))
        + u16::from(pair_in(mem, c, q))
        + u16::from(registers::carry(mem));
    arithmetic::add_carry_pair(mem, c, n, r, s)
}

pub fn sbc_pair(mem: &DataMemory, c: Cpu, n: u16, r: u8, q: u8) -> Effect
    ensures { result ≡ sub_carry_pair (at mem.now c) n r (256 + pair_in (at mem.now c) r - pair_in (at mem.now c) q - carry_in (at mem.now c)) }
{
    let d = 256 + u16::from(pair_in(mem, c, r))
        - u16::from(pair_in(mem, c, q))
        - u16::from(registers::carry(mem));
    arithmetic::sub_carry_pair(mem, c, n, r, d)
}

pub fn ads_pair(mem: &DataMemory, c: Cpu, n: u16, r: u8, v: u8) -> Effect
    ensures { result ≡ add_skip_pair (at mem.now c) n r (pair_in (at mem.now c) r + v) }
{
    arithmetic::add_skip_pair(mem, c, n, r, u16::from(pair_in(mem, c, r)) + u16::from(v))
}

pub fn sbs_pair(mem: &DataMemory, c: Cpu, n: u16, r: u8, v: u8) -> Effect
    ensures { result ≡ sub_skip_pair (at mem.now c) n r (256 + pair_in (at mem.now c) r - v) }
{
    arithmetic::sub_skip_pair(
        mem,
        c,
        n,
        r,
        256 + u16::from(pair_in(mem, c, r)) - u16::from(v),
    )
}

// The bit that a place names.
pub fn bit_of(mem: &DataMemory, c: Cpu, p: Place) -> u8
    ensures { (result ≡ bit_in (at mem.now c) (spot_of (at mem.now c) p)) × (result ≤ 1) }
{
    bits::bit_in(mem, c, bits::spot_of(mem, c, p))
}

pub fn set_place(mem: &DataMemory, c: Cpu, n: u16, p: Place, v: u8) -> Effect
    ensures { result ≡ set_bit (at mem.now c) n (spot_of (at mem.now c) p) v }
{
    bits::set_bit(mem, c, n, bits::spot_of(mem, c, p), v)
}

fn both(a: u8, b: u8) -> u8
    requires { b ≤ 1 }
    ensures { (result ≡ both a b) × (result ≤ 1) }
{
    if a == 1 { b } else { 0 }
}

fn either(a: u8, b: u8) -> u8
    requires { b ≤ 1 }
    ensures { (result ≡ either a b) × (result ≤ 1) }
{
    if a == 1 { 1 } else { b }
}

fn differ(a: u8, b: u8) -> u8
    ensures { (result ≡ differ a b) × (result ≤ 1) }
{
    if a == b { 0 } else { 1 }
}

pub fn and_c(mem: &DataMemory, c: Cpu, n: u16, b: u8) -> Effect
    requires { b ≤ 1 }
    ensures { result ≡ set_carry (at mem.now c) n (both (carry_in (at mem.now c)) b) }
{
    bits::set_carry(mem, c, n, both(registers::carry(mem), b))
}

pub fn or_c(mem: &DataMemory, c: Cpu, n: u16, b: u8) -> Effect
    requires { b ≤ 1 }
    ensures { result ≡ set_carry (at mem.now c) n (either (carry_in (at mem.now c)) b) }
{
    bits::set_carry(mem, c, n, either(registers::carry(mem), b))
}

pub fn xor_c(mem: &DataMemory, c: Cpu, n: u16, b: u8) -> Effect
    ensures { result ≡ set_carry (at mem.now c) n (differ (carry_in (at mem.now c)) b) }
{
    bits::set_carry(mem, c, n, differ(registers::carry(mem), b))
}
