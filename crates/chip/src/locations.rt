// The nibbles that the core names, by their locations. The RAM has the first ones, and bank 15, F80H to FFFH, those behind it.
pub const RAM: u16 = 512;

pub const BANK_15: u16 = 0xF80 - RAM;

// The stack pointer.
pub const SP_LOW: u16 = 0xF80 - BANK_15;

pub const SP_HIGH: u16 = 0xF81 - BANK_15;
// The basic timer: its mode register and its counter.
pub const BMOD: u16 = 0xF85 - BANK_15;

pub const BCNT_LOW: u16 = 0xF86 - BANK_15;

pub const BCNT_HIGH: u16 = 0xF87 - BANK_15;
// The watchdog: its mode register and its clear flag.
pub const WDMOD_LOW: u16 = 0xF98 - BANK_15;

pub const WDMOD_HIGH: u16 = 0xF99 - BANK_15;

pub const WDTCF: u16 = 0xF9A - BANK_15;
// The program status word: IS1 IS0 EMB ERB, and C SC2 SC1 SC0.
pub const STATUS: u16 = 0xFB0 - BANK_15;

pub const CARRY: u16 = 0xFB1 - BANK_15;
// The interrupt priority register, with IME as bit 3.
pub const IPR: u16 = 0xFB2 - BANK_15;
// The power control register.
pub const PCON: u16 = 0xFB3 - BANK_15;
// The mode registers of the external interrupts.
pub const IMOD0: u16 = 0xFB4 - BANK_15;

pub const IMOD1: u16 = 0xFB5 - BANK_15;

pub const IMODK: u16 = 0xFB6 - BANK_15;
// The enable and request flags IEx and IRQx.
pub const INTB: u16 = 0xFB8 - BANK_15;

pub const INTW: u16 = 0xFBA - BANK_15;

pub const INTT0: u16 = 0xFBC - BANK_15;

pub const INTS: u16 = 0xFBD - BANK_15;

pub const INT01: u16 = 0xFBE - BANK_15;

pub const INTK: u16 = 0xFBF - BANK_15;
// The mode flags of the ports: PMG1, PMG2 and PMG3.
pub const MODE_P0: u16 = 0xFE8 - BANK_15;

pub const MODE_P3: u16 = 0xFE9 - BANK_15;

pub const MODE_P4: u16 = 0xFEA - BANK_15;

pub const MODE_P5: u16 = 0xFEC - BANK_15;

pub const MODE_P6: u16 = 0xFED - BANK_15;
// The latches of the ports, P0's first.
pub const LATCHES: u16 = 0xFF0 - BANK_15;
