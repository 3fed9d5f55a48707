// What passes after the rules: the oscillator clocks of a step.
#![tactic(auto)]

ghost use Rattle.std.specs.Prelude.{◌≡◌, true, ◌&&◌, ◌||◌, ℕ, ◌/◌, ◌<◌, ◌≤◌, eqb, length};
ghost use Rattle.chip.specs.declared.Cpu.{Cpu};
ghost use Rattle.chip.specs.State.{at, nib_at, nibbles, rom0502};
ghost use Rattle.chip.specs.Scalars.{with_clock, with_basic};
ghost use Rattle.fetch.specs.declared.Code.{Code};
ghost use Rattle.fetch.specs.Fetch.{size_of, code_at};
ghost use Rattle.effects.specs.declared.Effect.{Effect};
ghost use Rattle.effects.specs.Effects.{writes_in, writes_of};
ghost use Rattle.timers.specs.Clock.{clocks_of, Ranged};
ghost use Rattle.timers.specs.Registers.{stored_in, basic_of};
ghost use Rattle.elapse.specs.Bounds.{most_clocks, last_count, ClockedAs, Stays};
ghost use Rattle.elapse.specs.Elapsed.{strikes, stops_in, timed_of, passed_by};

use chip::memory::nib;
use chip::modes::{RUNNING, STOPPED};
use chip::{Cpu, DataMemory, Timing, locations, reset};
use effects::{Effect, writes_to};
use fetch::{Origin, code_at, size};
use timers::state::{put_timers, timers_in};
use timers::{Passed, Timers, cleared, pass, still};

// The divider's phases: from here on the timers' bytes hold a count of the watchdog.
const PHASES: u16 = 4096;

// And from here on the count is at its last: in a step it goes up by one at most.
pub const LAST_COUNT: u16 = 7 * PHASES;

// Bit 3 alone.
const BIT_3: u8 = 8;

// What the clocks come to: the timers' bytes, and whether the watchdog resets the chip.
#[derive(Clone, Copy)]
pub struct Clocked {
    pub basic: u16,
    pub bitten: bool,
}

// Whether an effect, which is stored, wrote a 1 to bit 3 of the nibble i.
fn strikes(mem: &DataMemory, writes: u64, kind: u8, i: u16) -> bool
    requires { i < nibbles }
    ensures { (e : Effect) → e.writes ≡ writes → e.kind ≡ kind → result ≡ writes_in i (writes_of e) && eqb (nib_at mem.now i / 8) 1 }
{
    if nib(mem, i) < BIT_3 {
        return false;
    }
    writes_to(writes, kind, i)
}

// Whether the step was a STOP.
fn stops(was: u8, is: u8) -> bool
    ensures { result ≡ stops_in was is }
{
    if was == RUNNING { is == STOPPED } else { false }
}

// Whether a step clears the watchdog's count.
#[tactic(auto, unfolding(crate::specs::Elapsed::strikes))]
fn uncounts(mem: &DataMemory, writes: u64, kind: u8, was: u8, is: u8) -> bool
    ensures { (e : Effect) → e.writes ≡ writes → e.kind ≡ kind → result ≡ stops_in was is || strikes 0xF9A e mem.now }
{
    if stops(was, is) {
        true
    } else {
        strikes(mem, writes, kind, locations::WDTCF)
    }
}

// Whether n clocks move the phase alone: no clear counts, and neither does BCNT.
fn stays(mem: &DataMemory, writes: u64, kind: u8, was: u8, is: u8, basic: u16, n: u64) -> bool
    requires { n < most_clocks }
    ensures { result ≡ true → (e : Effect) → (d : Cpu) → e.writes ≡ writes → e.kind ≡ kind → d.mode ≡ is → d.timing.basic ≡ basic → Stays was e (at mem.now d) n }
{
    if PHASES <= basic {
        if uncounts(mem, writes, kind, was, is) {
            return false;
        }
    }
    still(mem, basic, n)
}

// The timers that the clocks came to, stored.
fn come(mem: &mut DataMemory, t: Timers, bitten: bool) -> Clocked
    requires { Ranged t }
    ensures { (mem.new ≡ stored_in mem.old t) × (result.basic ≡ basic_of t) × (result.bitten ≡ bitten) }
{
    let basic = put_timers(mem, t);
    Clocked {
        basic: basic,
        bitten: bitten,
    }
}

// n oscillator clocks after the rules, which found the mode `was` and left `is`; `writes` and `kind` are the effect's. The arguments are scalars: a struct
// that is lent to a call is kept in memory through all of a step (docs/SPEED.md).
#[tactic(auto, unfolding(crate::specs::Elapsed::strikes))]
fn clocks_on(
    mem: &mut DataMemory,
    writes: u64,
    kind: u8,
    was: u8,
    is: u8,
    basic: u16,
    n: u64,
) -> Clocked
    requires { n < most_clocks }
    ensures { (e : Effect) → (d : Cpu) → e.writes ≡ writes → e.kind ≡ kind → d.mode ≡ is → d.timing.basic ≡ basic → ClockedAs (clocks_of n (timed_of was e (at mem.old d))) mem.old result mem.new }
{
    if basic < LAST_COUNT {
        if stays(mem, writes, kind, was, is, basic, n) {
            return Clocked {
                basic: basic + (n as u16),
                bitten: false,
            };
        }
    }
    let restart = strikes(mem, writes, kind, locations::BMOD);
    let clear = uncounts(mem, writes, kind, was, is);
    let t = cleared(timers_in(mem, basic), restart, clear);
    let p = pass(t, n);
    match p {
        Passed::On(s) => come(mem, s, false),
        Passed::Reset(s) => come(mem, s, true),
    }
}

// The machine after them at its new clock, and reset where the watchdog did it.
pub fn elapsed(
    origin: Origin,
    code: &[u8],
    mem: &mut DataMemory,
    was: u8,
    is: u8,
    e: Effect,
    d: Cpu,
    clock: u32,
    n: u64,
) -> Cpu
    requires rom0502_bound { rom0502 ≤ size_of origin (length code.now) }
    requires n_lt_most_clocks { n < most_clocks }
    requires mode_value { d.mode ≡ is }
    ensures { at mem.new result ≡ passed_by (code_at origin code.now 0) (size_of origin (length code.now)) was e n (at mem.old (with_clock d clock)) }
{
    let k = clocks_on(mem, e.writes, e.kind, was, is, d.timing.basic, n);
    let timing = Timing {
        basic: k.basic,
        hold: d.timing.hold,
    };
    let mut x = d;
    x.clock = clock;
    x.timing = timing;
    if k.bitten {
        let v = code_at(origin, code, 0);
        reset::reset_mem(mem, v.b0);
        return reset::reset_cpu(x, size(origin, code.len()), v.b0, v.b1);
    }
    x
}

// What the basic timer keeps beside the nibbles after them, where the watchdog can't reset the chip.
fn timed(mem: &mut DataMemory, writes: u64, kind: u8, was: u8, is: u8, basic: u16, n: u64) -> u16
    requires n_lt_most_clocks { n < most_clocks }
    requires basic_lt_last_count { basic < last_count }
    ensures { (e : Effect) → (d : Cpu) → e.writes ≡ writes → e.kind ≡ kind → d.mode ≡ is → d.timing.basic ≡ basic → (v : Code) → (size : ℕ) → at mem.new (with_basic d result) ≡ passed_by v size was e n (at mem.old d) }
{
    if stays(mem, writes, kind, was, is, basic, n) {
        return basic + (n as u16);
    }
    let k = clocks_on(mem, writes, kind, was, is, basic, n);
    k.basic
}

// The machine after them, where the watchdog can't reset the chip. All fields are named: a copy with two of them changed takes 8 to 23 machine
// instructions a step more, by what else is chosen (docs/SPEED.md).
pub fn elapsed_quiet(
    mem: &mut DataMemory,
    was: u8,
    is: u8,
    e: Effect,
    d: Cpu,
    clock: u32,
    n: u64,
) -> Cpu
    requires n_lt_most_clocks { n < most_clocks }
    requires basic_lt_last_count { d.timing.basic < last_count }
    requires mode_value { d.mode ≡ is }
    ensures { (v : Code) → (size : ℕ) → at mem.new result ≡ passed_by v size was e n (at mem.old (with_clock d clock)) }
{
    let basic = timed(mem, e.writes, e.kind, was, is, d.timing.basic, n);
    Cpu {
        pc: d.pc,
        smb: d.smb,
        srb: d.srb,
        mode: d.mode,
        effect: d.effect,
        release: d.release,
        pins: d.pins,
        clock: clock,
        cursor: d.cursor,
        timing: Timing {
            basic: basic,
            hold: d.timing.hold,
        },
    }
}
