// What REF names: an entry of the reference area, whose first byte decides first.
#![tactic(auto)]

pub mod area;

ghost use Rattle.std.specs.Prelude.{◌≡◌};
ghost use Rattle.references.specs.Reference.{reference_of};

use area::{Reference, coded, target};

// What the entry of the reference area with these two bytes names.
pub fn reference(b0: u8, b1: u8) -> Reference
    ensures { result ≡ reference_of b0 b1 }
{
    match b0 {
        0x00..=0x3F => Reference::Jump(target(b0, b1)),
        0x40..=0x7F => Reference::Call(target(b0, b1)),
        _ => coded(b0, b1),
    }
}
