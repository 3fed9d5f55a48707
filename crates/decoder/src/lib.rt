// The decoder: the instruction of a code, by its first byte and then its second; and the kind of a code.
#![tactic(auto)]

mod first;
pub mod kinds;
mod second;

ghost use Rattle.std.specs.Prelude.{◌≡◌};
ghost use Rattle.codes.specs.Decode.{decode as decodeOf};

use codes::Instr;
use first::{high, low, middle};

// The instruction of a code, from its first three bytes.
pub fn decode(b0: u8, b1: u8, b2: u8) -> Instr
    ensures { result ≡ decodeOf b0 b1 b2 }
{
    match b0 {
        0x00..=0x7F => low(b0, b1),
        0x80..=0xBF => middle(b0, b1),
        _ => high(b0, b1, b2),
    }
}
