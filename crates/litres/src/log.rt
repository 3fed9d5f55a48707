// A log's records, which each tell a change of what a port drives, and which logs are taken.
ghost use Rattle.std.specs.Prelude.{◌≡◌, length};
ghost use Rattle.litres.specs.Log.{record_size, driven_ports, among, first_of, is_sound, is_log};

use words::long_at;

// The bytes of a record: the clock, the port and its nibble.
pub(crate) const RECORD: usize = 6;

const PORT: usize = 4;

const NIBBLE: usize = 5;

const HIGHEST_NIBBLE: u8 = 15;

// A record of a log.
#[derive(Clone, Copy)]
pub(crate) struct Change {
    pub(crate) clock: u32,
    pub(crate) port: u8,
    pub(crate) nibble: u8,
}

// What the bytes of a record tell.
pub(crate) fn change_in(bytes: &[u8]) -> Change
    requires { length bytes.now ≡ record_size }
    ensures { result ≡ first_of bytes.now }
{
    Change {
        clock: long_at(bytes, 0),
        port: bytes[PORT],
        nibble: bytes[NIBBLE],
    }
}

// P0, P3, P4, P5 and P6 are driven; P1 and P2 are inputs alone.
fn is_driven(port: u8) -> bool
    ensures { result ≡ among port driven_ports }
{
    matches!(port, 0 | 3..=6)
}

#[tactic(auto, unfolding(crate::specs::Log::is_sound))]
fn is_sound(c: Change) -> bool
    ensures { result ≡ is_sound c }
{
    is_driven(c.port) && c.nibble <= HIGHEST_NIBBLE
}

// Whole records of driven ports and nibbles, whose clock never falls.
#[tactic(auto, unfolding(crate::specs::Log::is_log))]
pub(crate) fn is_log(log: &[u8]) -> bool
    ensures { result ≡ is_log log.now }
{
    if log.len() % RECORD != 0 {
        return false;
    }
    let mut last = 0;
    for record in log.chunks_exact(RECORD) {
        let c = change_in(record);
        if c.clock < last || !is_sound(c) {
            return false;
        }
        last = c.clock;
    }
    true
}
