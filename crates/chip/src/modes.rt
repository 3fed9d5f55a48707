// The modes of the CPU.

pub const RUNNING: u8 = 0;

pub const IDLE: u8 = 1;

pub const STOPPED: u8 = 2;
