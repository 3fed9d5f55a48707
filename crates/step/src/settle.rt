// What follows the rules: what passes, the stops, the log and the commit.
ghost use Rattle.std.specs.Prelude.{◌≡◌, true, cond, List, ℕ, ◌+◌, ◌<◌, ◌≤◌, length, ltb, leb};
ghost use Rattle.chip.specs.declared.Cpu.{Cpu};
ghost use Rattle.chip.specs.Ports.{latched_of};
ghost use Rattle.chip.specs.Scalars.{with_clock};
ghost use Rattle.chip.specs.State.{at, nibbles, rom0502};
ghost use Rattle.effects.specs.Effects.{applied_to};
ghost use Rattle.fetch.specs.Fetch.{size_of, code_at};
ghost use Rattle.elapse.specs.Bounds.{last_count, most_cycles, most_clocks};
ghost use Rattle.step.specs.Brief.{Brief};
ghost use Rattle.elapse.specs.Elapsed.{passed_by};
ghost use Rattle.step.specs.Step.{logged_of, settled_of, Stepped};
ghost use Rattle.outcomes.specs.declared.Outcome.TheVariants.{Does};
ghost use Rattle.portlog.specs.Log.{writes_port, most_logged, drives_of};

use super::Stepping;
use arrivals::nibbles::{copy, keep, put_back};
use chip::{Cpu, DataMemory};
use commit::{commit_effect, commit_quiet};
use effects::Effect;
use elapse::{LAST_COUNT, elapsed, elapsed_quiet};
use fetch::Origin;
use numbers::{CLOCK, FULL};
use outcomes::Outcome;
use timers::rates::clocks;

// The clock's last value.
const LAST_CLOCK: u32 = 4294967295;

const CLOCK_STOP: u8 = CLOCK as u8;

const FULL_STOP: u8 = FULL as u8;

// The step's records written to the log where they fit; else the nibbles go back and the step stops. `was` is what the ports drove before the step. The clock stands beside the scalars: read from them, it would cost (docs/SPEED.md).
fn noted(
    mem: &mut DataMemory,
    saved: &DataMemory,
    log: &mut [u8],
    d: Cpu,
    clock: u32,
    due: u64,
    was: u32,
) -> Stepping
    requires { d.clock ≡ clock }
    ensures { (l : List ℕ) → was ≡ drives_of (latched_of l) → (length log.old < most_logged → saved.now ≡ l) → Stepped due (logged_of (latched_of l) (at mem.old d) (length log.old)) l log.old result mem.new log.new }
{
    let is = portlog::drives(mem);
    if was == is {
        return Stepping::Moved(d, due, 0);
    }
    let n = portlog::size(was, is);
    if log.len() < n {
        copy(saved, mem);
        return Stepping::Stopped(FULL_STOP, 0);
    }
    let k = portlog::notes(log, clock, was, is);
    Stepping::Moved(d, due, k)
}

// Whether a step may change a driven value: it had records, the watchdog may reset the chip in it, or it writes a port's location. `basic` are the
// timers' bytes.
fn may_drive(kept: bool, basic: u16, e: Effect) -> bool
    ensures { result ≡ cond kept true (cond (leb last_count basic) true (writes_port e)) }
{
    if kept {
        return true;
    }
    if LAST_COUNT <= basic {
        return true;
    }
    portlog::writes_port(e)
}

// Keeps the nibbles where the log may be full: nothing else can have to be undone once the effect is stored.
fn keep_if_short(mem: &DataMemory, saved: &mut DataMemory, kept: bool, room: usize)
    ensures { saved.new ≡ cond (ltb room most_logged) (cond kept saved.old mem.now) saved.old }
{
    if room < portlog::MOST {
        keep(mem, saved, kept);
    }
}

// What the ports drove before the step.
fn driven_before(mem: &DataMemory, saved: &DataMemory, kept: bool) -> u32
    ensures { result ≡ drives_of (latched_of (cond kept saved.now mem.now)) }
{
    if kept {
        portlog::drives(saved)
    } else {
        portlog::drives(mem)
    }
}

// The commit, the one place where a step stores its effect, what passes after it, and the log. `was` is the mode that the rules found, n the step's
// oscillator clocks.
fn committed(
    origin: Origin,
    code: &[u8],
    mem: &mut DataMemory,
    saved: &mut DataMemory,
    log: &mut [u8],
    was: u8,
    e: Effect,
    d: Cpu,
    clock: u32,
    n: u64,
    due: u64,
    kept: bool,
) -> Stepping
    requires rom0502_bound { rom0502 ≤ size_of origin (length code.now) }
    requires n_lt_most_clocks { n < most_clocks }
    ensures { Stepped due (logged_of (latched_of (cond kept saved.old mem.old)) (passed_by (code_at origin code.now 0) (size_of origin (length code.now)) was e n (at (applied_to mem.old e) (with_clock d clock))) (length log.old)) (cond kept saved.old mem.old) log.old result mem.new log.new }
{
    if may_drive(kept, d.timing.basic, e) {
        keep_if_short(mem, saved, kept, log.len());
        let drove = driven_before(mem, saved, kept);
        commit_effect(mem, e);
        let x = elapsed(origin, code, mem, was, d.mode, e, d, clock, n);
        noted(mem, saved, log, x, clock, due, drove)
    } else {
        commit_quiet(mem, e);
        let x = elapsed_quiet(mem, was, d.mode, e, d, clock, n);
        Stepping::Moved(x, due, 0)
    }
}

fn finish(
    origin: Origin,
    code: &[u8],
    mem: &mut DataMemory,
    saved: &mut DataMemory,
    log: &mut [u8],
    was: u8,
    e: Effect,
    d: Cpu,
    t: u8,
    due: u64,
    kept: bool,
) -> Stepping
    requires rom0502_bound { rom0502 ≤ size_of origin (length code.now) }
    requires t_lt_most_cycles { t < most_cycles }
    ensures { (c : Cpu) → c.mode ≡ was → Stepped due (settled_of (code_at origin code.now 0) (size_of origin (length code.now)) (latched_of (cond kept saved.old mem.old)) (at mem.old c) (Does e d t) (length log.old)) (cond kept saved.old mem.old) log.old result mem.new log.new }
{
    // The count's first use that needs more than a byte.
    let t = t as u32;
    if LAST_CLOCK - d.clock < t {
        put_back(mem, saved, kept);
        return Stepping::Stopped(CLOCK_STOP, 0);
    }
    let n = clocks(mem, was, t);
    committed(
        origin,
        code,
        mem,
        saved,
        log,
        was,
        e,
        d,
        d.clock + t,
        n,
        due,
        kept,
    )
}

// What follows the rules' outcome t. `was` is the mode that the rules found; `kept` says that the nibbles before the step are in `saved`.
pub fn settled(
    origin: Origin,
    code: &[u8],
    mem: &mut DataMemory,
    saved: &mut DataMemory,
    log: &mut [u8],
    was: u8,
    t: Outcome,
    due: u64,
    kept: bool,
) -> Stepping
    requires rom0502_bound { rom0502 ≤ size_of origin (length code.now) }
    requires brief { Brief t }
    ensures stepped { (c : Cpu) → c.mode ≡ was → Stepped due (settled_of (code_at origin code.now 0) (size_of origin (length code.now)) (latched_of (cond kept saved.old mem.old)) (at mem.old c) t (length log.old)) (cond kept saved.old mem.old) log.old result mem.new log.new }
    ensures long { length saved.new ≡ nibbles }
{
    match t {
        Outcome::Stops(k, p) => {
            put_back(mem, saved, kept);
            Stepping::Stopped(k, p)
        }
        Outcome::Does(e, d, cycles) => finish(
            origin, code, mem, saved, log, was, e, d, cycles, due, kept,
        ),
    }
}
