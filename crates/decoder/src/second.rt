// Codes by their second byte, for the first bytes D9H, DBH, DCH and DDH. Their contracts hold whatever the third byte is.

ghost use Rattle.std.specs.Prelude.{◌≡◌, ℕ};
ghost use Rattle.codes.specs.Decode.{decode};

use codes::Instr;

// CPSE R,#im and LD Ra,#im: the immediate is the high nibble.
pub fn after_d9(b1: u8) -> Instr
    ensures { (z : ℕ) → result ≡ decode 0xD9 b1 z }
{
    let low = b1 % 16;
    match low {
        0x00..=0x07 => Instr::CpseRIm(low, b1 / 16),
        0x08 => Instr::Undefined,
        _ => Instr::LdRaIm(low % 8, b1 / 16),
    }
}

// JP and CALL: an address of 14 bits, high byte first.
pub fn after_db(b1: u8, b2: u8) -> Instr
    ensures { result ≡ decode 0xDB b1 b2 }
{
    match b1 {
        0x00..=0x3F => Instr::Jp(b1 as u16 * 256 + b2 as u16),
        0x40..=0x7F => Instr::Call((b1 % 64) as u16 * 256 + b2 as u16),
        _ => Instr::Undefined,
    }
}

// The codes of EA with @HL and with a register pair.
pub fn after_dc(b1: u8) -> Instr
    ensures { (z : ℕ) → result ≡ decode 0xDC b1 z }
{
    match b1 {
        0x00 => Instr::LdHlEa,
        0x01 => Instr::XchEaHl,
        0x08 => Instr::LdEaHl,
        0x09 => Instr::CpseEaHl,
        0x12 | 0x14 | 0x16 => Instr::AndRrbEa(b1 % 8),
        0x18 | 0x1A | 0x1C | 0x1E => Instr::AndEaRr(b1 % 8),
        0x22 | 0x24 | 0x26 => Instr::OrRrbEa(b1 % 8),
        0x28 | 0x2A | 0x2C | 0x2E => Instr::OrEaRr(b1 % 8),
        0x32 | 0x34 | 0x36 => Instr::XorRrbEa(b1 % 8),
        0x38 | 0x3A | 0x3C | 0x3E => Instr::XorEaRr(b1 % 8),
        0x92 | 0x94 | 0x96 => Instr::AdsRrbEa(b1 % 8),
        0x98 | 0x9A | 0x9C | 0x9E => Instr::AdsEaRr(b1 % 8),
        0xA2 | 0xA4 | 0xA6 => Instr::AdcRrbEa(b1 % 8),
        0xA8 | 0xAA | 0xAC | 0xAE => Instr::AdcEaRr(b1 % 8),
        0xB2 | 0xB4 | 0xB6 => Instr::SbsRrbEa(b1 % 8),
        0xB8 | 0xBA | 0xBC | 0xBE => Instr::SbsEaRr(b1 % 8),
        0xC2 | 0xC4 | 0xC6 => Instr::SbcRrbEa(b1 % 8),
        0xC8 | 0xCA | 0xCC | 0xCE => Instr::SbcEaRr(b1 % 8),
        0xD8 | 0xDA | 0xDC | 0xDE => Instr::DecsRr(b1 % 8),
        0xE2 | 0xE4 | 0xE6 => Instr::XchEaRrb(b1 % 8),
        0xE8 | 0xEA | 0xEC | 0xEE => Instr::CpseEaRr(b1 % 8),
        0xF2 | 0xF4 | 0xF6 => Instr::LdRrbEa(b1 % 8),
        0xFA | 0xFC | 0xFE => Instr::LdEaRrb(b1 % 8),
        _ => Instr::Undefined,
    }
}

// The codes of A with a register or an immediate, of the banks, of @HL with an immediate, and JR by a pair.
pub fn after_dd(b1: u8) -> Instr
    ensures { (z : ℕ) → result ≡ decode 0xDD b1 z }
{
    match b1 {
        0x01..=0x07 => Instr::LdRaA(b1 % 8),
        0x09..=0x0F => Instr::LdARa(b1 % 8),
        0x10..=0x1F => Instr::AndAIm(b1 % 16),
        0x20..=0x2F => Instr::OrAIm(b1 % 16),
        0x30..=0x3E => Instr::XorAIm(b1 % 16),
        0x3F => Instr::Com,
        0x40..=0x41 => Instr::Smb(b1 % 16),
        0x4F => Instr::Smb(15),
        0x50..=0x53 => Instr::Srb(b1 % 4),
        0x60 => Instr::JrEa,
        0x62 => Instr::IncsHl,
        0x64 => Instr::JrWx,
        0x66 => Instr::PopSb,
        0x67 => Instr::PushSb,
        0x68..=0x6F => Instr::CpseAR(b1 % 8),
        0x70..=0x7F => Instr::CpseHlIm(b1 % 16),
        _ => Instr::Undefined,
    }
}
