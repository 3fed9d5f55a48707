// The codes that name a bit by their second byte: first bytes F4H to F9H and FCH to FFH. EI, DI, IDLE and STOP have codes among them and more fixed bits.
#![tactic(auto)]

ghost use Rattle.std.specs.Borrow.{Bor};
ghost use Rattle.std.specs.Prelude.{true, false, ◌≡◌, ℕ};
ghost use Rattle.codes.specs.Decode.{decode, member};
ghost use Rattle.codes.specs.Entry.{bit_codes};
ghost use Rattle.bitcodes.specs.BitCodes.{named_by, under_of, special};

use codes::{Instr, Place};

// What the second byte names, if it names a bit.
fn place_named(b1: u8) -> Option<Place>
    ensures { result ≡ named_by b1 }
{
    match b1 {
        0x00..=0x3F => Some(Place::Hda(b1 % 16, b1 / 16)),
        0x40..=0x4F => Some(Place::Memb(b1 % 16 * 4)),
        0x50..=0x7F => None,
        0x80..=0xBF => Some(Place::Mema(0xB0 + b1 % 16, b1 / 16 % 4)),
        _ => Some(Place::Mema(0xF0 + b1 % 16, b1 / 16 % 4)),
    }
}

// The first byte's instruction of a bit.
fn under(b0: u8, p: Place) -> Instr
    ensures { result ≡ under_of b0 p }
{
    match b0 {
        0xF4 => Instr::LdbToC(p),
        0xF5 => Instr::Band(p),
        0xF6 => Instr::Bor(p),
        0xF7 => Instr::Bxor(p),
        0xF8 => Instr::Btsf(p),
        0xF9 => Instr::Btst(p),
        0xFC => Instr::LdbFromC(p),
        0xFD => Instr::Btstz(p),
        0xFE => Instr::Bitr(p),
        _ => Instr::Bits(p),
    }
}

pub fn bit_code(b0: u8, b1: u8) -> Instr
    requires { (member b0 bit_codes ≡ true) × (special b0 b1 ≡ false) }
    ensures { (z : ℕ) → result ≡ decode b0 b1 z }
{
    match place_named(b1) {
        Some(p) => under(b0, p),
        None => Instr::Undefined,
    }
}

pub fn after_fe(b1: u8) -> Instr
    ensures { (z : ℕ) → result ≡ decode 0xFE b1 z }
{
    match b1 {
        0xB2 => Instr::Di,
        _ => bit_code(0xFE, b1),
    }
}

pub fn after_ff(b1: u8) -> Instr
    ensures { (z : ℕ) → result ≡ decode 0xFF b1 z }
{
    match b1 {
        0xA3 => Instr::Idle,
        0xB2 => Instr::Ei,
        0xB3 => Instr::Stop,
        _ => bit_code(0xFF, b1),
    }
}
