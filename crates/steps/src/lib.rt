// A stretch: steps of idle or stop mode, or of the hold after a reset, that pass in one go.
#![tactic(auto)]

ghost use Rattle.std.specs.Prelude.{◌≡◌, true, ◌+◌, ◌-◌, ◌*◌, ◌≤◌};
ghost use Rattle.chip.specs.State.{at};
ghost use Rattle.step.specs.Step.{last_clock};
ghost use Rattle.timers.specs.Clock.{quiet_of};
ghost use Rattle.timers.specs.Rates.{rate_of};
ghost use Rattle.timers.specs.Registers.{timers_of};
ghost use Rattle.steps.specs.Stretch.{passed_of, calm_of, until_of, least_of, awake_of, asleep_of, idle_steps, by_origin, stretch_of};

use chip::modes::RUNNING;
use chip::{Cpu, DataMemory, Timing};
use fetch::Origin;
use pending::wakes;
use timers::rates::{clocks, rate};
use timers::state::{put_timers, timers_in};
use timers::{pass_quiet, quiet_cycles};

// The clock's last value, and the same as a due time.
const LAST_CLOCK: u32 = 4294967295;

const LAST_DUE: u64 = 4294967295;

// What remains of the hold after n cycles.
fn fallen(hold: u16, n: u32) -> u16
    ensures { result ≡ hold - n }
{
    u32::from(hold).saturating_sub(n) as u16
}

// The machine after n cycles in one go.
pub fn passed(mem: &mut DataMemory, c: Cpu, n: u32) -> Cpu
    requires n_bound { c.clock + n ≤ last_clock }
    requires c_value { quiet_of (n * rate_of (at mem.old c)) (timers_of (at mem.old c)) ≡ true }
    ensures { at mem.new result ≡ passed_of (at mem.old c) n }
{
    let t = pass_quiet(timers_in(mem, c.timing.basic), clocks(mem, c.mode, n));
    let basic = put_timers(mem, t);
    let timing = Timing {
        basic: basic,
        hold: fallen(c.timing.hold, n),
    };
    let mut d = c;
    d.clock = c.clock + n;
    d.timing = timing;
    d
}

// The cycles before the one in which BCNT overflows; in stop mode there is none.
fn calm(mem: &DataMemory, c: Cpu) -> u32
    ensures { result ≡ calm_of (at mem.now c) }
{
    let r = rate(mem, c.mode);
    if r == 0 {
        return LAST_CLOCK;
    }
    quiet_cycles(timers_in(mem, c.timing.basic), r)
}

// The cycles up to the due time of the next record, or to the clock's end; 0 where a record is due.
fn until(clock: u32, due: u64) -> u32
    ensures { result ≡ until_of clock due }
{
    if LAST_DUE < due {
        return LAST_CLOCK - clock;
    }
    let at = due as u32;
    if at < clock {
        return 0;
    }
    at - clock
}

// Of at most `left` steps, those in which the CPU does nothing: what remains of the hold, or any number in idle or stop mode where no source releases.
#[tactic(auto, unfolding(crate::specs::Stretch::asleep_of))]
fn asleep(mem: &DataMemory, c: Cpu, left: u32) -> u32
    ensures { result ≡ asleep_of (at mem.now c) left }
{
    if c.timing.hold != 0 {
        return left.min(u32::from(c.timing.hold));
    }
    if wakes(mem) { 0 } else { left }
}

// Those of them before the next record, the clock's end and the next timer event.
#[tactic(auto, unfolding(crate::specs::Stretch::idle_steps))]
fn idle_steps(mem: &DataMemory, c: Cpu, due: u64, left: u32) -> u32
    ensures { result ≡ idle_steps (at mem.now c) due left }
{
    asleep(mem, c, left).min(until(c.clock, due).min(calm(mem, c)))
}

// The plain machine makes one step after another.
#[tactic(auto, unfolding(crate::specs::Stretch::by_origin))]
fn by_origin(origin: Origin, mem: &DataMemory, c: Cpu, due: u64, left: u32) -> u32
    ensures { result ≡ by_origin origin (at mem.now c) due left }
{
    match origin {
        Origin::Rom => 0,
        Origin::Table => idle_steps(mem, c, due, left),
    }
}

// Whether the CPU runs, neither held nor in idle or stop mode: RUNNING is 0, and one test for both takes the fewest machine instructions (docs/SPEED.md).
fn awake(c: Cpu) -> bool
    ensures { result ≡ awake_of c }
{
    (c.mode as u32) + (c.timing.hold as u32) == (RUNNING as u32)
}

// How many steps pass in one go.
#[tactic(auto, unfolding(crate::specs::Stretch::stretch_of))]
pub fn stretch(origin: Origin, mem: &DataMemory, c: Cpu, due: u64, left: u32) -> u32
    ensures { result ≡ stretch_of origin (at mem.now c) due left }
{
    if awake(c) {
        return 0;
    }
    by_origin(origin, mem, c, due, left)
}
