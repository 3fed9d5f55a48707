// The reference area: what the two bytes of an entry name.

ghost use Rattle.std.specs.Prelude.{◌≡◌};
ghost use Rattle.references.specs.Reference.{coded_of, paired, single, target_of};

use codes::lengths::LENGTH_2_CYCLES_2;
use codes::second::{info_bit, info_d9, info_dc, info_dd};

// A pair of Table 5-1 by its two codes; a code of 2 bytes and 2 cycles by its bytes; TJP and TCALL with their targets; anything else. The bytes
// are handed on as they stand, so that whoever carries them out decodes in one place.
#[derive(Clone, Copy)]
pub enum Reference {
    Pair(u8, u8),
    Code(u8, u8),
    Jump(u16),
    Call(u16),
    Nothing,
}

// The lower 14 bits of an entry.
pub fn target(b0: u8, b1: u8) -> u16
    ensures { result ≡ target_of b0 b1 }
{
    (b0 % 64) as u16 * 256 + b1 as u16
}

// The two bytes are a pair of Table 5-1.
fn is_pair(b0: u8, b1: u8) -> bool
    ensures { result ≡ paired b0 b1 }
{
    match b0 {
        0x8D => steps_hl(b1),
        0xC4 => steps_hl(b1),
        0x8E => steps_wx(b1),
        0x8F => steps_wl(b1),
        _ => false,
    }
}

// The second codes after LD A,@HL and LD @HL,A; after LD A,@WX; after LD A,@WL.
fn steps_hl(b1: u8) -> bool
    ensures { result ≡ paired 0x8D b1 }
{
    match b1 {
        0x4A..=0x4B => true,
        0x5A..=0x5B => true,
        0x82 => true,
        _ => false,
    }
}

fn steps_wx(b1: u8) -> bool
    ensures { result ≡ paired 0x8E b1 }
{
    match b1 {
        0x4C..=0x4D => true,
        0x5C..=0x5D => true,
        0x84 => true,
        _ => false,
    }
}

fn steps_wl(b1: u8) -> bool
    ensures { result ≡ paired 0x8F b1 }
{
    match b1 {
        0x4A | 0x4D | 0x5A | 0x5D => true,
        _ => false,
    }
}

// The two bytes are a defined code of 2 bytes and 2 cycles.
fn is_single(b0: u8, b1: u8) -> bool
    ensures { result ≡ single b0 b1 }
{
    match b0 {
        0x79 | 0x81 | 0x83 | 0x85 | 0x87 | 0x89 | 0x8C => true,
        0x90..=0x9F => true,
        0xC0..=0xC3 => true,
        0xC9..=0xCA => true,
        0xCD..=0xD3 => true,
        0xD9 => info_d9(b1) == LENGTH_2_CYCLES_2,
        0xDB => false,
        0xDC => info_dc(b1) == LENGTH_2_CYCLES_2,
        0xDD => info_dd(b1) == LENGTH_2_CYCLES_2,
        0xE0..=0xE3 => true,
        0xF0..=0xF3 => true,
        0xF4..=0xF9 => info_bit(b1) == LENGTH_2_CYCLES_2,
        0xFC..=0xFF => info_bit(b1) == LENGTH_2_CYCLES_2,
        _ => false,
    }
}

// What an entry past the jumps and the calls names.
pub fn coded(b0: u8, b1: u8) -> Reference
    ensures { result ≡ coded_of b0 b1 }
{
    let pair = is_pair(b0, b1);
    if pair {
        return Reference::Pair(b0, b1);
    }
    let one = is_single(b0, b1);
    if one {
        return Reference::Code(b0, b1);
    }
    Reference::Nothing
}
