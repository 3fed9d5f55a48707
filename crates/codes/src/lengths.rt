// Length and cycles of a code in one byte, length + 4 * cycles.

// A code that fits no row.
pub const UNDEFINED: u8 = 0;

pub const LENGTH_1_CYCLES_1: u8 = 1 + 4 * 1;

pub const LENGTH_1_CYCLES_2: u8 = 1 + 4 * 2;

pub const LENGTH_1_CYCLES_3: u8 = 1 + 4 * 3;

pub const LENGTH_2_CYCLES_2: u8 = 2 + 4 * 2;

pub const LENGTH_2_CYCLES_3: u8 = 2 + 4 * 3;

pub const LENGTH_3_CYCLES_3: u8 = 3 + 4 * 3;

pub const LENGTH_3_CYCLES_4: u8 = 3 + 4 * 4;

// No code's: the entry of a first byte whose second byte matters.
pub const MARK: u8 = 32;
