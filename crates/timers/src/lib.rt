// The basic timer and its watchdog: what a step's oscillator clocks do to them, with no step for each clock.
//
// `still` is for the common step, in which BCNT doesn't count; `pass` is for any other, `quiet_cycles` and `pass_quiet` are for a stretch of idle or
// held cycles.
#![tactic(auto)]

ghost use Rattle.std.specs.Prelude.{◌≡◌, true, cond, ◌≤◌, ◌<◌, ◌-◌, ◌/◌};
ghost use Rattle.timers.specs.Clock.{clocks_of, quiet_of, QuietCycles, Ranged};
ghost use Rattle.timers.specs.Clears.{restarted, cleared_of};
ghost use Rattle.timers.specs.Closed.{total_of, state_of, quiet_state_of, bite_at, overflow_at, still_of};

use after::{after, bitten};
use chip::memory::nib;
use chip::{DataMemory, locations};
use taps::{reach_at, tap, ticks_in};

mod after;
pub mod rates;
pub mod state;
mod taps;

// The divider's phases, BCNT's values, and the watchdog's counts.
pub(crate) const PHASES: u64 = 4096;

pub(crate) const COUNTER_VALUES: u64 = 256;

pub(crate) const WATCHDOG_COUNTS: u64 = 8;

// The basic timer and its watchdog: registers, the request flag, the divider's phase and the watchdog's count.
#[derive(Clone, Copy)]
pub struct Timers {
    pub bmod: u8,
    pub bcnt: u8,
    pub watched: bool, // WDMOD isn't 5AH
    pub irqb: u8,
    pub phase: u16,
    pub count: u8, // of BCNT overflows
}

// What some oscillator clocks come to: the timers after them, or as they stand after the clock with which the watchdog resets the chip.
#[derive(Clone, Copy)]
pub enum Passed {
    On(Timers),
    Reset(Timers),
}

// BMOD.3 restarts the timer.
fn start(t: Timers, restart: bool) -> Timers
    ensures { result ≡ cond restart (restarted t) t }
{
    let mut s = t;
    if restart {
        s.bmod = t.bmod % 8;
        s.bcnt = 0;
        s.irqb = 0;
    }
    s
}

// Before the clocks: the timer restarted by BMOD.3, and the watchdog's count cleared by WDTCF or STOP.
#[tactic(auto, unfolding(crate::specs::Clears::cleared_of))]
pub fn cleared(t: Timers, restart: bool, clear: bool) -> Timers
    ensures { result ≡ cleared_of restart clear t }
{
    let mut s = start(t, restart);
    if clear {
        s.count = 0;
    }
    s
}

// BCNT after n clocks if it went on past 255.
#[tactic(auto, unfolding(crate::specs::Closed::total_of))]
fn total(t: Timers, n: u64) -> u64
    requires { n ≤ 274877906944 }
    ensures { (result ≡ total_of n t) × (result ≤ 274877972735) }
{
    u64::from(t.bcnt) + ticks_in(tap(t.bmod), t.phase, n)
}

// The clock with which the watchdog resets the chip.
#[tactic(auto, unfolding(crate::specs::Closed::bite_at))]
fn bite_at(t: Timers) -> u64
    requires { Ranged t }
    ensures { (result ≡ bite_at t) × (result ≤ 16777216) }
{
    reach_at(
        tap(t.bmod),
        t.phase,
        COUNTER_VALUES * (WATCHDOG_COUNTS - u64::from(t.count)) - u64::from(t.bcnt),
    )
}

fn reset(t: Timers) -> Timers
    requires { Ranged t }
    ensures { result ≡ state_of (bite_at t) t }
{
    let m = bite_at(t);
    after(t, m, total(t, m))
}

// n oscillator clocks: those of a step.
pub fn pass(t: Timers, n: u64) -> Passed
    requires ranged { Ranged t }
    requires n_bound { n ≤ 274877906944 }
    ensures { result ≡ clocks_of n t }
{
    let c = total(t, n);
    if bitten(t.watched, t.count, c) {
        return Passed::Reset(reset(t));
    }
    Passed::On(after(t, n, c))
}

// How many cycles of `rate` clocks each pass before the one in which BCNT overflows.
pub fn quiet_cycles(t: Timers, rate: u32) -> u32
    requires ranged { Ranged t }
    requires rate_nonzero { 0 < rate }
    ensures { (result ≡ (overflow_at t - 1) / rate) × QuietCycles result rate t }
{
    let at = reach_at(tap(t.bmod), t.phase, COUNTER_VALUES - u64::from(t.bcnt));
    ((at - 1) / (rate as u64)) as u32
}

// n clocks in which BCNT doesn't overflow.
pub fn pass_quiet(t: Timers, n: u64) -> Timers
    requires ranged { Ranged t }
    requires t_value { quiet_of n t ≡ true }
    ensures { result ≡ quiet_state_of n t }
{
    let mut s = t;
    s.bcnt = total(t, n) as u8;
    s.phase = ((u64::from(t.phase) + n) % PHASES) as u16;
    s
}

// Whether n clocks move the phase alone; `basic` are the timers' bytes.
pub fn still(mem: &DataMemory, basic: u16, n: u64) -> bool
    requires { n ≤ 274877906944 }
    ensures { result ≡ still_of mem.now basic n }
{
    let bmod = nib(mem, locations::BMOD);
    if 8 <= bmod {
        return false;
    }
    let w = u64::from(basic);
    let k = tap(bmod);
    (w + n) >> k == w >> k
}
