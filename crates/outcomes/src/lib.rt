// What rules 2 to 4 of a step come to: a cycle of idle or stop mode, an interrupt entry, or an effect with its skip; and a cycle of the hold that takes
// their place. Nothing is written here.
#![tactic(auto)]

ghost use Rattle.std.specs.Prelude.{◌≡◌, ◌<◌, ◌≤◌, ◌-◌, length};
ghost use Rattle.chip.specs.State.{at, rom0502};
ghost use Rattle.chip.specs.Interrupts.{source_at};
ghost use Rattle.fetch.specs.Fetch.{size_of, code_at};
ghost use Rattle.pending.specs.Pending.{no_source};
ghost use Rattle.references.specs.Coding.{is_ads};
ghost use Rattle.outcomes.specs.Carried.{skipped_as};
ghost use Rattle.outcomes.specs.Outcomes.{release_of, idle_of, held_of, entry_cpu, psw_of, status_write, entry_of, after_cpu, skipped_of, done_of, skip_of};

use chip::interrupts::is_flags;
use chip::memory::wrap;
use chip::modes::RUNNING;
use chip::reset::vector_pc;
use chip::{Cpu, DataMemory, Timing, locations, memory, pick};
use effects::{Effect, NO_SKIP, SKIP_ADS, pushing};
use fetch::{Code, Origin, byte_at, info_at};
use numbers::CODE;

// The stop at an undefined code, as an outcome has it.
pub const CODE_STOP: u8 = CODE as u8;

// In place of the bytes that a skip passes, where it would skip an undefined code.
const UNDEFINED_SKIP: u8 = 255;

// What the rules or a cycle of the hold do, before anything is written: the number and address of a stop, or an effect with the scalars after it (but the clock) and
// its cycles.
#[derive(Clone, Copy)]
pub enum Outcome {
    Stops(u8, u16),
    Does(Effect, Cpu, u8),
}

// The release count after a cycle of idle or stop mode.
fn release_of(mem: &DataMemory, c: Cpu) -> u8
    ensures { result ≡ release_of (at mem.now c) }
{
    if pending::wakes_vectored(mem) {
        pick(chip::interrupts::ime(mem) == 1, 2, c.release)
    } else {
        c.release
    }
}

// A cycle of idle or stop mode.
#[tactic(auto, unfolding(crate::specs::Outcomes::idle_of))]
pub fn idle(mem: &DataMemory, c: Cpu) -> Outcome
    ensures { result ≡ idle_of (at mem.now c) }
{
    let mode = pick(pending::wakes(mem), RUNNING, c.mode);
    let release = release_of(mem, c);
    let e = control::jump_to(c, 0);
    let mut d = c;
    d.mode = mode;
    d.release = release;
    Outcome::Does(e, d, 1)
}

// A cycle of the hold after a reset.
#[tactic(auto, unfolding(crate::specs::Outcomes::held_of))]
pub fn held(c: Cpu) -> Outcome
    ensures { result ≡ held_of c }
{
    let timing = Timing {
        basic: c.timing.basic,
        hold: c.timing.hold.saturating_sub(1),
    };
    let e = control::jump_to(c, 0);
    let mut d = c;
    d.timing = timing;
    Outcome::Does(e, d, 1)
}

fn entry_cpu(c: Cpu, pc: u16) -> Cpu
    ensures { result ≡ entry_cpu c pc }
{
    let mut d = c;
    d.pc = pc;
    d.effect = 0;
    d
}

// FB0H and FB1H as they are pushed.
#[tactic(auto, unfolding(crate::specs::Outcomes::psw_of))]
fn psw_of(mem: &DataMemory) -> u16
    ensures { result ≡ psw_of mem.now }
{
    (memory::nib(mem, locations::STATUS) as u16) + 16 * (memory::nib(mem, locations::CARRY) as u16)
}

// The write of FB0H after the push: IS a level up, EMB and ERB from the vector.
#[tactic(auto, unfolding(crate::specs::Outcomes::status_write))]
fn status_write(mem: &DataMemory, b0: u8) -> u16
    ensures { result ≡ status_write mem.now b0 }
{
    memory::write_to(locations::STATUS, 4 * (is_flags(mem) + 1) + b0 / 64)
}

// The vector of source k.
#[tactic(auto, unfolding(chip::specs::Interrupts::source_at))]
pub fn vector_of(k: u8) -> u16
    requires { k < no_source }
    ensures { result ≡ (source_at k).vector }
{
    match k {
        0 => 0x0002,
        1 => 0x0004,
        2 => 0x0006,
        3 => 0x0008,
        _ => 0x000A,
    }
}

// The entry of source k, v the code at its vector.
#[tactic(auto, unfolding(crate::specs::Outcomes::entry_of))]
pub fn entry(n: usize, mem: &DataMemory, c: Cpu, k: u8, v: Code) -> Outcome
    requires { k < no_source }
    ensures { result ≡ entry_of n (at mem.now c) k v }
{
    let pc = vector_pc(n, v.b0, v.b1);
    let e = pushing(
        c,
        pc,
        c.pc,
        psw_of(mem),
        status_write(mem, v.b0),
        pending::acknowledged(mem, k),
    );
    let d = entry_cpu(c, pc);
    Outcome::Does(e, d, 2)
}

// The scalars after an effect.
fn after_cpu(c: Cpu, e: Effect, pc: u16, carried: u8) -> Cpu
    ensures { result ≡ after_cpu c e pc carried }
{
    let mut d = c;
    d.pc = pc;
    d.smb = e.smb;
    d.srb = e.srb;
    d.mode = e.mode;
    d.effect = carried;
    d.release = c.release.saturating_sub(1);
    d
}

fn is_ads(b: u8) -> bool
    ensures { result ≡ is_ads b }
{
    if 0xA0 < b { b < 0xB0 } else { false }
}

// How many bytes a skip at p passes, or UNDEFINED_SKIP.
#[tactic(auto, unfolding(fetch::specs::Fetch::code_at, crate::specs::Outcomes::skipped_of))]
fn skipped(origin: Origin, code: &[u8], skip: u8, p: u16) -> u8
    requires { rom0502 ≤ size_of origin (length code.now) }
    ensures { skipped_as result ≡ skipped_of skip (code_at origin code.now p) }
{
    if skip == NO_SKIP {
        0
    } else if skip == SKIP_ADS {
        pick(is_ads(byte_at(origin, code, p)), 1, 0)
    } else {
        let info = info_at(origin, code, p);
        pick(info == 0, UNDEFINED_SKIP, info % 4)
    }
}

// An effect with its skip at `to`.
#[tactic(auto, unfolding(crate::specs::Outcomes::done_of))]
fn done(n: usize, c: Cpu, e: Effect, cycles: u8, to: u16, s: u8) -> Outcome
    requires { cycles < 64 }
    ensures { result ≡ done_of n c e cycles to (skipped_as s) }
{
    if s == UNDEFINED_SKIP {
        return Outcome::Stops(CODE_STOP, to);
    }
    let pc = wrap(n, to % 4096 + (s as u16));
    let carried = pick(s == 0, e.carried, 0);
    let d = after_cpu(c, e, pc, carried);
    Outcome::Does(e, d, cycles + (s + 1) / 2)
}

// An effect with its skip, n the ROM's length.
#[tactic(auto, unfolding(fetch::specs::Fetch::code_at, crate::specs::Outcomes::skip_of))]
pub fn skip_after(origin: Origin, code: &[u8], n: usize, c: Cpu, e: Effect, cycles: u8) -> Outcome
    requires rom0502_bound { rom0502 ≤ size_of origin (length code.now) }
    requires cycles_bound { cycles < 64 }
    ensures { result ≡ skip_of (code_at origin code.now) n c e cycles }
{
    let to = wrap(n, e.next);
    let s = skipped(origin, code, e.skip, to);
    done(n, c, e, cycles, to, s)
}
