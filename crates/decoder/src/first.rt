// Codes by their first byte. `b2` is the third byte, which only JP and CALL use; the contracts of the others name it alone.

ghost use Rattle.std.specs.Prelude.{◌≡◌, ℕ, ◌<◌, ◌≤◌};
ghost use Rattle.codes.specs.Decode.{decode};

use crate::second::{after_d9, after_db, after_dc, after_dd};
use bitcodes::{after_fe, after_ff, bit_code};
use codes::{Instr, Place};

// First bytes 00H to 7FH: jumps, REF, and the one-byte codes of A with @HL, of a register and of a pair.
pub fn low(b0: u8, b1: u8) -> Instr
    requires { b0 < 0x80 }
    ensures { (z : ℕ) → result ≡ decode b0 b1 z }
{
    match b0 {
        0x01..=0x0F => Instr::JrBack(b0 % 16),
        0x11..=0x1F => Instr::JrForward(b0 % 16),
        0x28 | 0x2A | 0x2C | 0x2E => Instr::PopRr(b0 % 8),
        0x29 | 0x2B | 0x2D | 0x2F => Instr::PushRr(b0 / 2 % 4 * 2),
        0x38 => Instr::CpseAHl,
        0x39 => Instr::AndAHl,
        0x3A => Instr::OrAHl,
        0x3B => Instr::XorAHl,
        0x3C => Instr::SbcAHl,
        0x3D => Instr::SbsAHl,
        0x3E => Instr::AdcAHl,
        0x3F => Instr::AdsAHl,
        0x48..=0x4F => Instr::DecsR(b0 % 8),
        0x58..=0x5F => Instr::IncsR(b0 % 8),
        0x69..=0x6F => Instr::XchARa(b0 % 8),
        0x79 => Instr::XchADa(b1),
        0x7A => Instr::Xchi,
        0x7B => Instr::Xchd,
        0x7D..=0x7F => Instr::XchARra(b0 % 8),
        0x20..=0x27 => Instr::Ref(b0 / 16 * 16 + b0 % 8 * 2),
        0x30..=0x37 => Instr::Ref(b0 / 16 * 16 + b0 % 8 * 2),
        0x40..=0x47 => Instr::Ref(b0 / 16 * 16 + b0 % 8 * 2),
        0x50..=0x57 => Instr::Ref(b0 / 16 * 16 + b0 % 8 * 2),
        0x60..=0x67 => Instr::Ref(b0 / 16 * 16 + b0 % 8 * 2),
        0x70..=0x77 => Instr::Ref(b0 / 16 * 16 + b0 % 8 * 2),
        _ => Instr::Undefined,
    }
}

// First bytes 80H to BFH: loads, JPS, and the one-byte codes of A with an immediate.
pub fn middle(b0: u8, b1: u8) -> Instr
    requires { (0x80 ≤ b0) × (b0 < 0xC0) }
    ensures { (z : ℕ) → result ≡ decode b0 b1 z }
{
    match b0 {
        0x81 | 0x83 | 0x85 | 0x87 => Instr::LdRrImm(b0 / 2 % 4 * 2, b1),
        0x82 | 0x84 | 0x86 => Instr::IncsRrb(b0 % 8),
        0x88 => Instr::Rrc,
        0x89 => Instr::LdDaA(b1),
        0x8A => Instr::Ldi,
        0x8B => Instr::Ldd,
        0x8C => Instr::LdADa(b1),
        0x8D..=0x8F => Instr::LdARra(b0 % 8),
        0x90..=0x9F => Instr::Jps((b0 % 16) as u16 * 256 + b1 as u16),
        0xA0 => Instr::Nop,
        0xA1..=0xAF => Instr::AdsAIm(b0 % 16),
        0xB0..=0xBF => Instr::LdAIm(b0 % 16),
        _ => Instr::Undefined,
    }
}

// First bytes C0H to FFH: DA.b, calls and returns, the codes of EA and DA, and those whose second byte decides.
pub fn high(b0: u8, b1: u8, b2: u8) -> Instr
    requires { (0xC0 ≤ b0) × (b0 < 0x100) }
    ensures { result ≡ decode b0 b1 b2 }
{
    match b0 {
        0xC0 | 0xD0 | 0xE0 | 0xF0 => Instr::Bitr(Place::Da(b1, b0 / 16 % 4)),
        0xC1 | 0xD1 | 0xE1 | 0xF1 => Instr::Bits(Place::Da(b1, b0 / 16 % 4)),
        0xC2 | 0xD2 | 0xE2 | 0xF2 => Instr::Btsf(Place::Da(b1, b0 / 16 % 4)),
        0xC3 | 0xD3 | 0xE3 | 0xF3 => Instr::Btst(Place::Da(b1, b0 / 16 % 4)),
        0xC4 => Instr::LdHlA,
        0xC5 => Instr::Ret,
        0xC8 => Instr::LdcEa,
        0xC9 => Instr::AdsEaImm(b1),
        0xCA => Instr::IncsDa(b1),
        0xCC => Instr::LdcWx,
        0xCD => Instr::LdDaEa(b1),
        0xCE => Instr::LdEaDa(b1),
        0xCF => Instr::XchEaDa(b1),
        0xD5 => Instr::Iret,
        0xD6 => Instr::Ccf,
        0xD7 => Instr::BtstC,
        0xD9 => after_d9(b1),
        0xDB => after_db(b1, b2),
        0xDC => after_dc(b1),
        0xDD => after_dd(b1),
        0xE5 => Instr::Sret,
        0xE6 => Instr::Rcf,
        0xE7 => Instr::Scf,
        0xE8..=0xEF => Instr::Calls((b0 % 8) as u16 * 256 + b1 as u16),
        0xF4..=0xF9 => bit_code(b0, b1),
        0xFC..=0xFD => bit_code(b0, b1),
        0xFE => after_fe(b1),
        0xFF => after_ff(b1),
        _ => Instr::Undefined,
    }
}
