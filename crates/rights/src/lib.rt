// The rights of bank 15: which bits of a location an access of a width reads and writes (Table 4-1).
#![tactic(auto)]

ghost use Rattle.std.specs.Prelude.{◌≡◌, ◌<◌, ◌≤◌};
ghost use Rattle.rights.specs.Digits.{rights_at, column_in, reach_in, readable_in, writable_in};

// The widths of a data access, as the table has them in columns. Of an 8-bit access each half is judged by itself.
#[derive(Clone, Copy)]
pub enum Width {
    One,
    Four,
    Eight,
}

// F80H to FBFH: the stack pointer, timers, status word and interrupt flags.
#[tactic(auto, unfolding(crate::specs::Access::table_4_1, crate::specs::Digits::rights_at))]
fn timers_and_interrupts(a: u16) -> u32
    requires { a < 0xFC0 }
    ensures { result ≡ rights_at a }
{
    match a {
        0xF80 => 0x3F00E,
        0xF81 => 0x3F00F,
        0xF85 => 0x20F8F,
        0xF86 => 0x1F00F,
        0xF87 => 0x1F00F,
        0xF88 => 0x2F006,
        0xF89 => 0x2F00B,
        0xF90 => 0x2F08C,
        0xF91 => 0x2F007,
        0xF92 => 0x30FF4,
        0xF94 => 0x1F00F,
        0xF95 => 0x1F00F,
        0xF96 => 0x2F00F,
        0xF97 => 0x2F00F,
        0xF98 => 0x2F00F,
        0xF99 => 0x2F00F,
        0xF9A => 0x200F8,
        0xFB0 => 0x3FFFF,
        0xFB1 => 0x1F00F,
        0xFB2 => 0x20F8F,
        0xFB3 => 0x20F03,
        0xFB4 => 0x20F0B,
        0xFB5 => 0x20F01,
        0xFB6 => 0x20F07,
        0xFB8 => 0x30FF3,
        0xFBA => 0x30FF3,
        0xFBC => 0x30FF3,
        0xFBD => 0x30FF3,
        0xFBE => 0x30FFF,
        0xFBF => 0x30FF3,
        _ => 0,
    }
}

// FC0H to FFFH: the bit sequential carrier, clocks, comparator, serial interface, mode flags and ports.
#[tactic(auto, unfolding(crate::specs::Access::table_4_1, crate::specs::Digits::rights_at))]
fn carriers_and_ports(a: u16) -> u32
    requires { 0xFC0 ≤ a }
    ensures { result ≡ rights_at a }
{
    match a {
        0xFC0 => 0x3FFFF,
        0xFC1 => 0x3FFFF,
        0xFC2 => 0x3FFFF,
        0xFC3 => 0x3FFFF,
        0xFD0 => 0x20F0B,
        0xFD4 => 0x10F0F,
        0xFD6 => 0x3F00F,
        0xFD7 => 0x3F00E,
        0xFDA => 0x2F00F,
        0xFDB => 0x2F00F,
        0xFDC => 0x2F00B,
        0xFDD => 0x2F007,
        0xFE0 => 0x2F08F,
        0xFE1 => 0x2F00E,
        0xFE2 => 0x20F0F,
        0xFE4 => 0x3F00F,
        0xFE5 => 0x3F00F,
        0xFE8 => 0x2F007,
        0xFE9 => 0x2F007,
        0xFEA => 0x2F00F,
        0xFEB => 0x2F000,
        0xFEC => 0x2F00F,
        0xFED => 0x2F00F,
        0xFF0 => 0x30FF7,
        0xFF1 => 0x10FF3,
        0xFF2 => 0x10FFF,
        0xFF3 => 0x30FF7,
        0xFF4 => 0x3FFFF,
        0xFF5 => 0x3FFFF,
        0xFF6 => 0x30FFF,
        _ => 0,
    }
}

// A location's columns as the digits of one number: R/W, 8-bit, 4-bit, 1-bit, bits. 0 for a location that is not listed.
pub fn rights_at(a: u16) -> u32
    ensures { result ≡ rights_at a }
{
    if a < 0xFC0 {
        timers_and_interrupts(a)
    } else {
        carriers_and_ports(a)
    }
}

pub fn column(w: Width, k: u32) -> u8
    ensures { result ≡ column_in w k }
{
    match w {
        Width::One => (k / 0x10 % 16) as u8,
        Width::Four => (k / 0x100 % 16) as u8,
        Width::Eight => (k / 0x1000 % 16) as u8,
    }
}

// The bits that an access of the width reaches.
#[tactic(auto, unfolding(crate::specs::Digits::reach_in))]
pub fn reach(w: Width, k: u32) -> u8
    ensures { (result ≡ reach_in w k) × (result < 16) }
{
    column(w, k) & ((k % 16) as u8)
}

// The bits that a read gives.
#[tactic(auto, unfolding(crate::specs::Digits::readable_in))]
pub fn readable(w: Width, k: u32) -> u8
    ensures { (result ≡ readable_in w k) × (result < 16) }
{
    if k / 0x10000 % 2 == 1 { reach(w, k) } else { 0 }
}

// The width's column where the location may be written, else 0.
#[tactic(auto, unfolding(crate::specs::Digits::writable_in))]
pub fn writable(w: Width, k: u32) -> u8
    ensures { result ≡ writable_in w k }
{
    if k / 0x20000 % 2 == 1 {
        column(w, k)
    } else {
        0
    }
}
