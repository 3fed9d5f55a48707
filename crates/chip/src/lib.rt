// The chip: its state, data memory, ports, working registers and reset.
//
// The 640 nibbles are lent (`mem`), so that nothing copies them at a step; the scalars go by value in `Cpu`.
#![tactic(auto)]

ghost use Rattle.std.specs.Prelude.{◌≡◌, cond, length, get_or};
ghost use Rattle.chip.specs.Reset.{fresh_of};

pub mod interrupts;
pub mod locations;
pub mod memory;
pub mod modes;
pub mod ports;
pub mod reset;

// What goes on by time beside the nibbles. `basic` is the basic timer's: bits 0 to 11 the phase of its free-running divider, bits 12 to 14 the watchdog's
// count of BCNT overflows. `hold` is what remains of the cycles for which a reset holds the CPU.
#[derive(Clone, Copy)]
pub struct Timing {
    pub basic: u16,
    pub hold: u16,
}

// All of the machine but its nibbles. `pins` has a nibble for each of P0 to P6, lowest first. The order of the fields is counted: others take up to 57
// machine instructions a step more (docs/SPEED.md).
#[derive(Clone, Copy)]
pub struct Cpu {
    pub pins: u32,
    pub clock: u32,
    pub cursor: u32,
    pub pc: u16,
    pub smb: u8,
    pub srb: u8,
    pub mode: u8,
    pub effect: u8,
    pub release: u8,
    pub timing: Timing,
}

// The nibbles of the data memory: those of the RAM, and those of bank 15 behind them.
pub type DataMemory = [u8; Machine::NIBBLES];

// The machine as a value: the image's fields, the nibbles as an array.
#[derive(Clone, Copy)]
pub struct Machine {
    pub mem: DataMemory,
    pub cpu: Cpu,
}

impl Machine {
    pub const NIBBLES: usize = 640;

    pub const IMAGE: usize = 666;

    pub const ROM_0502: usize = 2048;

    pub const ROM_0504: usize = 4096;
    // The table of a ROM of N bytes has 4 bytes for each address.
    pub const ENTRY: usize = 4;

    // The fresh machine of a ROM: all 0, then reset.
    #[tactic(auto, unfolding(crate::specs::Reset::fresh_of))]
    pub fn fresh(rom: &[u8]) -> Machine
        ensures { result ≡ fresh_of (length rom.now) (get_or rom.now 0 0) (get_or rom.now 1 0) }
    {
        let mut mem = [0u8; Machine::NIBBLES];
        let b0 = byte_at(rom, 0);
        let b1 = byte_at(rom, 1);
        reset::reset_mem(&mut mem, b0);
        let cpu = reset::reset_cpu(reset::zero_cpu(), rom.len(), b0, b1);
        Machine { mem, cpu }
    }
}

// A byte of a ROM, 0 past its end.
fn byte_at(rom: &[u8], at: usize) -> u8
    ensures { result ≡ get_or rom.now at 0 }
{
    if at < rom.len() { rom[at] } else { 0 }
}

// The one or the other.
pub fn pick<T: Copy>(c: bool, a: T, b: T) -> T
    ensures { result ≡ cond c a b }
{
    if c { a } else { b }
}
