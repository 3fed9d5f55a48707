// The kinds of a code. A run asks for one only at a code that stops it.

ghost use Rattle.std.specs.Prelude.{◌≡◌};
ghost use Rattle.codes.specs.Decode.{member};
ghost use Rattle.codes.specs.Kinds.{kind_of, pair_codes, register_codes, bank_codes, outside_letter, outside_set};

use codes::lengths::UNDEFINED;
use codes::{Kind, info};

// After DCH: EA in RRb's place.
fn ea_as_rrb(b1: u8) -> bool
    ensures { result ≡ member b1 pair_codes }
{
    match b1 {
        0x10 | 0x20 | 0x30 | 0x90 | 0xA0 | 0xB0 | 0xC0 | 0xE0 | 0xF0 | 0xF8 => true,
        _ => false,
    }
}

// After DDH: A in Ra's place.
fn a_as_ra(b1: u8) -> bool
    ensures { result ≡ member b1 register_codes }
{
    match b1 {
        0x00 | 0x08 => true,
        _ => false,
    }
}

// After DDH: an SMB of no bank, an SRB of no bank.
fn no_bank(b1: u8) -> bool
    ensures { result ≡ member b1 bank_codes }
{
    match b1 {
        0x42..=0x4E => true,
        0x54..=0x5F => true,
        _ => false,
    }
}

// A register of Table 5-7 is outside its letter. 78H and 7CH are none of these: their registers are Table 5-8's.
fn outside_letter(b0: u8, b1: u8) -> bool
    ensures { result ≡ outside_letter b0 b1 }
{
    match b0 {
        0x68 | 0x80 => true,
        0xD9 => b1 % 16 == 0x08,
        0xDC => ea_as_rrb(b1),
        0xDD => a_as_ra(b1),
        _ => false,
    }
}

// The number of an SMB or SRB is outside its set.
fn outside_set(b0: u8, b1: u8) -> bool
    ensures { result ≡ outside_set b0 b1 }
{
    if b0 == 0xDD { no_bank(b1) } else { false }
}

// The kind of a code, from its first two bytes. A code of either list has no length, so that length and cycles tell only the other two kinds apart.
pub fn kind(b0: u8, b1: u8) -> Kind
    ensures { result ≡ kind_of b0 b1 }
{
    if outside_letter(b0, b1) {
        Kind::Register
    } else if outside_set(b0, b1) {
        Kind::Bank
    } else if info(b0, b1) == UNDEFINED {
        Kind::Undefined
    } else {
        Kind::Defined
    }
}
