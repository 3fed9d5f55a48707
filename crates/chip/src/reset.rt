// Reset: Table 9-1, the vector at 0000H, and the hold.
ghost use Rattle.std.specs.Prelude.{◌≡◌, ◌+◌};
ghost use Rattle.chip.specs.State.{nibbles};
ghost use Rattle.chip.specs.Reset.{reset_registers, reset_status, vector_pc, reset_mem, reset_cpu, zero_cpu};

use super::locations::{BANK_15, CARRY, STATUS};
use super::memory::{nib, put, put_at, wrap};
use super::{Cpu, DataMemory, Timing};

// What Table 9-1 writes, as writes of `memory`: a nibble's index and its value.
const VALUES: [u16; 55] = [
    // The note below the table.
    16 * 0x0F8,
    16 * 0x0F9,
    16 * 0x0FA,
    16 * 0x0FB,
    16 * 0x0FC,
    16 * 0x0FD,
    // BSC0 to BSC3.
    16 * (0xFC0 - BANK_15),
    16 * (0xFC1 - BANK_15),
    16 * (0xFC2 - BANK_15),
    16 * (0xFC3 - BANK_15),
    // PCON.
    16 * (0xFB3 - BANK_15),
    // CLMOD.
    16 * (0xFD0 - BANK_15),
    // IEx, IRQx.
    16 * (0xFB8 - BANK_15),
    16 * (0xFBA - BANK_15),
    16 * (0xFBC - BANK_15),
    16 * (0xFBD - BANK_15),
    16 * (0xFBE - BANK_15),
    16 * (0xFBF - BANK_15),
    // IPR, IME.
    16 * (0xFB2 - BANK_15),
    // IMOD0, IMOD1, IMODK.
    16 * (0xFB4 - BANK_15),
    16 * (0xFB5 - BANK_15),
    16 * (0xFB6 - BANK_15),
    // Output latches.
    16 * (0xFF0 - BANK_15),
    16 * (0xFF3 - BANK_15),
    16 * (0xFF4 - BANK_15),
    16 * (0xFF5 - BANK_15),
    16 * (0xFF6 - BANK_15),
    // Port mode flags.
    16 * (0xFE8 - BANK_15),
    16 * (0xFE9 - BANK_15),
    16 * (0xFEA - BANK_15),
    16 * (0xFEB - BANK_15),
    16 * (0xFEC - BANK_15),
    16 * (0xFED - BANK_15),
    // PUMOD.
    16 * (0xFDC - BANK_15),
    16 * (0xFDD - BANK_15),
    // P2MOD.
    16 * (0xFE2 - BANK_15),
    // PNE.
    16 * (0xFDA - BANK_15),
    16 * (0xFDB - BANK_15),
    // WDMOD.
    16 * (0xF98 - BANK_15) + 5,
    16 * (0xF99 - BANK_15) + 10,
    // WDTCF.
    16 * (0xF9A - BANK_15),
    // BMOD.
    16 * (0xF85 - BANK_15),
    // TCNT0.
    16 * (0xF94 - BANK_15),
    16 * (0xF95 - BANK_15),
    // TREF0.
    16 * (0xF96 - BANK_15) + 15,
    16 * (0xF97 - BANK_15) + 15,
    // TMOD0.
    16 * (0xF90 - BANK_15),
    16 * (0xF91 - BANK_15),
    // TOE0.
    16 * (0xF92 - BANK_15),
    // WMOD.
    16 * (0xF88 - BANK_15),
    16 * (0xF89 - BANK_15),
    // CMOD.
    16 * (0xFD6 - BANK_15),
    16 * (0xFD7 - BANK_15),
    // SMOD.
    16 * (0xFE0 - BANK_15),
    16 * (0xFE1 - BANK_15),
];

// The cycles for which a reset holds the CPU.
pub const HELD_CYCLES: u16 = 2048;

// Table 9-1's values, in turn.
fn reset_registers(mem: &mut DataMemory)
    ensures { mem.new ≡ reset_registers mem.old }
{
    for value in VALUES {
        put(mem, value);
    }
}

#[tactic(auto, unfolding(crate::specs::Reset::reset_status))]
fn reset_status(mem: &mut DataMemory, b0: u8)
    ensures { mem.new ≡ reset_status mem.old b0 }
{
    let kept = nib(mem, CARRY) / 8 * 8;
    put_at(mem, CARRY, kept);
    put_at(mem, STATUS, b0 / 64);
}

// The nibbles after a reset; b0 is the byte at 0000H, whose bits 7 and 6 are EMB and ERB.
#[tactic(auto, unfolding(crate::specs::Reset::reset_mem))]
pub fn reset_mem(mem: &mut DataMemory, b0: u8)
    ensures { mem.new ≡ reset_mem mem.old b0 }
{
    reset_registers(mem);
    reset_status(mem, b0);
}

pub fn vector_pc(n: usize, b0: u8, b1: u8) -> u16
    ensures { result ≡ vector_pc n b0 b1 }
{
    wrap(n, 256 * ((b0 as u16) % 16) + (b1 as u16))
}

// The scalars after a reset.
pub fn reset_cpu(c: Cpu, n: usize, b0: u8, b1: u8) -> Cpu
    ensures { result ≡ reset_cpu c n b0 b1 }
{
    let timing = Timing {
        basic: 0,
        hold: HELD_CYCLES,
    };
    let mut d = c;
    d.pc = vector_pc(n, b0, b1);
    d.smb = 0;
    d.srb = 0;
    d.mode = 0;
    d.effect = 0;
    d.release = 0;
    d.timing = timing;
    d
}

pub fn zero_cpu() -> Cpu
    ensures { result ≡ zero_cpu }
{
    Cpu {
        pc: 0,
        smb: 0,
        srb: 0,
        mode: 0,
        effect: 0,
        release: 0,
        pins: 0,
        clock: 0,
        cursor: 0,
        timing: Timing { basic: 0, hold: 0 },
    }
}
