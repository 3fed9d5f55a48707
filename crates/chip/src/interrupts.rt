// The interrupt flags, by source: 0 INTB, 1 INT0, 2 INT1, 3 INTS, 4 INTT0, 5 INTW, 6 INTK.
ghost use Rattle.std.specs.Prelude.{◌≡◌, ◌<◌};
ghost use Rattle.chip.specs.Interrupts.{asks_of, ime_of, ipr_of, is_of};

use super::memory::nib;
use super::{DataMemory, locations};

// IEx and IRQx are both 1.
#[tactic(auto, unfolding(crate::specs::Interrupts::asks_of))]
pub fn asks(mem: &DataMemory, k: u8) -> bool
    requires { k < 7 }
    ensures { result ≡ asks_of mem.now k }
{
    match k {
        0 => nib(mem, locations::INTB) / 1 % 4 == 3,
        1 => nib(mem, locations::INT01) / 1 % 4 == 3,
        2 => nib(mem, locations::INT01) / 4 % 4 == 3,
        3 => nib(mem, locations::INTS) / 1 % 4 == 3,
        4 => nib(mem, locations::INTT0) / 1 % 4 == 3,
        5 => nib(mem, locations::INTW) / 1 % 4 == 3,
        _ => nib(mem, locations::INTK) / 1 % 4 == 3,
    }
}

pub fn ime(mem: &DataMemory) -> u8
    ensures { result ≡ ime_of mem.now }
{
    nib(mem, locations::IPR) / 8
}

pub fn ipr(mem: &DataMemory) -> u8
    ensures { result ≡ ipr_of mem.now }
{
    nib(mem, locations::IPR) % 8
}

pub fn is_flags(mem: &DataMemory) -> u8
    ensures { result ≡ is_of mem.now }
{
    nib(mem, locations::STATUS) / 4
}
