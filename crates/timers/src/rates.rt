// The oscillator clocks of a cycle: Table 6-1, and none in stop mode.
ghost use Rattle.std.specs.Prelude.{◌≡◌, ◌*◌, ◌≤◌};
ghost use Rattle.timers.specs.Rates.{rate_in};

use chip::memory::nib;
use chip::modes::STOPPED;
use chip::{DataMemory, locations};

// All four values are listed: the compiler makes a table of them, which it reads with no test.
#[tactic(auto, unfolding(crate::specs::Rates::rate_in))]
pub fn rate(mem: &DataMemory, mode: u8) -> u32
    ensures { (result ≡ rate_in mem.now mode) × (result ≤ 64) }
{
    if mode == STOPPED {
        return 0;
    }
    match nib(mem, locations::PCON) % 4 {
        0 => 64,
        1 => 64,
        2 => 8,
        _ => 4,
    }
}

// Those of a step's cycles.
pub fn clocks(mem: &DataMemory, mode: u8, cycles: u32) -> u64
    ensures { (result ≡ cycles * rate_in mem.now mode) × (result ≤ 274877906944) }
{
    (cycles as u64) * (rate(mem, mode) as u64)
}
