// The ports: what they read and what they drive.
ghost use Rattle.std.specs.Prelude.{◌≡◌, ◌<◌, ◌≤◌};
ghost use Rattle.chip.specs.Ports.{pins_of, outputs_of, latched_of, port_of};

use super::memory::nib;
use super::{DataMemory, locations};

// The pins of port p.
pub fn pins_of(pins: u32, p: u16) -> u8
    requires { p < 7 }
    ensures { result ≡ pins_of pins p }
{
    ((pins >> (4 * (p as u32))) % 16) as u8
}

// The pins of port p in output mode.
#[tactic(auto, unfolding(crate::specs::Ports::outputs_of))]
pub fn outputs(mem: &DataMemory, p: u16) -> u8
    requires { p < 7 }
    ensures { (result ≡ outputs_of mem.now p) × (result ≤ 15) }
{
    match p {
        0 => nib(mem, locations::MODE_P0) & 7,
        1 => 0,
        2 => 0,
        3 => nib(mem, locations::MODE_P3) & 7,
        4 => nib(mem, locations::MODE_P4) & 15,
        5 => nib(mem, locations::MODE_P5) & 15,
        _ => nib(mem, locations::MODE_P6) & 15,
    }
}

// What port p drives: its latch on the pins in output mode.
#[tactic(auto, unfolding(crate::specs::Ports::latched_of))]
pub fn driven(mem: &DataMemory, p: u16) -> u8
    requires { p < 7 }
    ensures { result ≡ latched_of mem.now p }
{
    nib(mem, locations::LATCHES + p) & outputs(mem, p)
}

// What port p reads, before the rights of its location.
#[tactic(auto, unfolding(crate::specs::Ports::port_of))]
pub fn port(mem: &DataMemory, pins: u32, p: u16) -> u8
    requires { p < 7 }
    ensures { result ≡ port_of mem.now pins p }
{
    driven(mem, p) | (pins_of(pins, p) & (15 - outputs(mem, p)))
}
