// Where a machine holds its basic timer and watchdog.
ghost use Rattle.std.specs.Prelude.{◌≡◌, ◌<◌};
ghost use Rattle.chip.specs.State.{nibbles};
ghost use Rattle.timers.specs.Clock.{Ranged};
ghost use Rattle.timers.specs.Registers.{bcnt_of, watched_in, with_bmod, with_bcnt, with_irqb, timers_in, stored_in, basic_of};

use super::{PHASES, Timers, WATCHDOG_COUNTS};
use chip::memory::{nib, put_at};
use chip::{DataMemory, locations};

// The value of WDMOD that turns the watchdog off.
const WATCHDOG_OFF: u8 = 0x5A;

fn bcnt(mem: &DataMemory) -> u8
    ensures { result ≡ bcnt_of mem.now }
{
    nib(mem, locations::BCNT_LOW) + 16 * nib(mem, locations::BCNT_HIGH)
}

fn watched(mem: &DataMemory) -> bool
    ensures { result ≡ watched_in mem.now }
{
    nib(mem, locations::WDMOD_LOW) + 16 * nib(mem, locations::WDMOD_HIGH) != WATCHDOG_OFF
}

// The timers of a machine.
pub fn timers_in(mem: &DataMemory, basic: u16) -> Timers
    ensures { (result ≡ timers_in mem.now basic) × Ranged result }
{
    Timers {
        bmod: nib(mem, locations::BMOD),
        bcnt: bcnt(mem),
        watched: watched(mem),
        irqb: nib(mem, locations::INTB) % 2,
        phase: basic % (PHASES as u16),
        count: (basic / (PHASES as u16) % (WATCHDOG_COUNTS as u16)) as u8,
    }
}

fn put_bmod(mem: &mut DataMemory, b: u8)
    ensures { mem.new ≡ with_bmod mem.old b }
{
    if b != nib(mem, locations::BMOD) {
        put_at(mem, locations::BMOD, b);
    }
}

fn put_bcnt(mem: &mut DataMemory, b: u8)
    ensures { mem.new ≡ with_bcnt mem.old b }
{
    if b != bcnt(mem) {
        put_at(mem, locations::BCNT_LOW, b % 16);
        put_at(mem, locations::BCNT_HIGH, b / 16);
    }
}

fn put_irqb(mem: &mut DataMemory, b: u8)
    requires { b < 2 }
    ensures { mem.new ≡ with_irqb mem.old b }
{
    let flags = nib(mem, locations::INTB);
    if b != flags % 2 {
        put_at(mem, locations::INTB, flags / 2 * 2 + b);
    }
}

// Stores the timers in the nibbles; the answer is what is kept beside these.
pub fn put_timers(mem: &mut DataMemory, t: Timers) -> u16
    requires { Ranged t }
    ensures { (mem.new ≡ stored_in mem.old t) × (result ≡ basic_of t) }
{
    put_bmod(mem, t.bmod);
    put_bcnt(mem, t.bcnt);
    put_irqb(mem, t.irqb);
    t.phase + (PHASES as u16) * (t.count as u16)
}
