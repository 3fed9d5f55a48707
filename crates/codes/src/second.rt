// Length and cycles of the codes whose second byte matters, by that byte, in the form of the first bytes' table.

ghost use Rattle.std.specs.Prelude.{◌≡◌};
ghost use Rattle.codes.specs.Decode.{info_of};

use crate::lengths::{
    LENGTH_2_CYCLES_2, LENGTH_2_CYCLES_3, LENGTH_3_CYCLES_3, LENGTH_3_CYCLES_4, UNDEFINED,
};

// CPSE R,#im takes every register, LD Ra,#im all but A.
pub fn info_d9(b1: u8) -> u8
    ensures { result ≡ info_of 0xD9 b1 }
{
    if b1 % 16 == 8 {
        UNDEFINED
    } else {
        LENGTH_2_CYCLES_2
    }
}

// JP and CALL.
pub fn info_db(b1: u8) -> u8
    ensures { result ≡ info_of 0xDB b1 }
{
    match b1 {
        0x00..=0x3F => LENGTH_3_CYCLES_3,
        0x40..=0x7F => LENGTH_3_CYCLES_4,
        _ => UNDEFINED,
    }
}

// The codes of EA: register pairs have even numbers, and RRb is not EA, whose number is 0.
pub fn info_dc(b1: u8) -> u8
    ensures { result ≡ info_of 0xDC b1 }
{
    match b1 {
        0x00 | 0x01 | 0x08 | 0x09 => LENGTH_2_CYCLES_2,
        0x10 | 0x20 | 0x30 | 0x90 | 0xA0 | 0xB0 | 0xC0 | 0xE0 | 0xF0 | 0xF8 => UNDEFINED,
        0x11..=0x3F => LENGTH_2_CYCLES_2 - b1 % 2 * LENGTH_2_CYCLES_2,
        0x91..=0xCF => LENGTH_2_CYCLES_2 - b1 % 2 * LENGTH_2_CYCLES_2,
        0xD8..=0xFF => LENGTH_2_CYCLES_2 - b1 % 2 * LENGTH_2_CYCLES_2,
        _ => UNDEFINED,
    }
}

// The codes of A, of an immediate, of SB and of the banks; JR @EA and JR @WX have 3 cycles.
pub fn info_dd(b1: u8) -> u8
    ensures { result ≡ info_of 0xDD b1 }
{
    match b1 {
        0x00 | 0x08 => UNDEFINED,
        0x4F | 0x62 => LENGTH_2_CYCLES_2,
        0x60 | 0x64 => LENGTH_2_CYCLES_3,
        0x01..=0x41 => LENGTH_2_CYCLES_2,
        0x50..=0x53 => LENGTH_2_CYCLES_2,
        0x66..=0x7F => LENGTH_2_CYCLES_2,
        _ => UNDEFINED,
    }
}

// The codes of a bit, whatever their first byte.
pub fn info_bit(b1: u8) -> u8
    ensures { result ≡ info_of 0xF9 b1 }
{
    match b1 {
        0x50..=0x7F => UNDEFINED,
        _ => LENGTH_2_CYCLES_2,
    }
}
