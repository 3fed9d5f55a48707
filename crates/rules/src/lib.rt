// Rules 2 to 4 of a step: idle, interrupt entry, or an instruction with its skip; or, in their place, a cycle of the hold after a reset. In phases, which a run calls one after another: as one function
// they are too large for the compiler to make part of the run's loop. Nothing is written here.
#![tactic(auto)]

ghost use Rattle.std.specs.Prelude.{◌≡◌, cond, eqb, ◌<◌, ◌≤◌, length};
ghost use Rattle.chip.specs.State.{at, rom0502};
ghost use Rattle.fetch.specs.Fetch.{size_of, code_at};
ghost use Rattle.pending.specs.Pending.{no_source};
ghost use Rattle.references.specs.Coding.{is_ref, area_of};
ghost use Rattle.rules.specs.Rules.{referred_of, first_write, pair_effect, after_code, cycles_of, enters_now};
ghost use Rattle.rules.specs.Phases.{entry_kind, held_source, chosen, chosen_as, met_as, bare, met_code, fetched_of, executed_of, resolved_of};

use chip::memory::wrap;
use chip::modes::RUNNING;
use chip::{Cpu, DataMemory, memory, pick};
use codes::Instr;
use effects::{Effect, operands};
use fetch::{Code, Origin, code_at, size};
use numbers::REFERENCE;
use outcomes::{CODE_STOP, Outcome, entry, held, idle, skip_after, vector_of};
use postincrement::pairs;
use references::area::Reference;
use rights::Width;

// The kinds of what a step meets: what is carried out for a code (itself, the code that a REF names, the pair that it names), a REF that names
// nothing, an undefined code, the interrupt of source b0, a cycle of idle or stop mode, a cycle of the hold.
const ITSELF: u8 = 0;

const REFERRED: u8 = 1;

const PAIR: u8 = 2;

const NOTHING: u8 = 3;

const UNDEFINED: u8 = 4;

const ENTRY: u8 = 5;

const IDLE: u8 = 6;

const HELD: u8 = 7;

// In the place of a source, while the CPU is held: none is served, and no code runs either.
const HELD_SOURCE: u8 = pending::NO_SOURCE + 1;

// The stop at a REF that names nothing, as an outcome has it.
const REFERENCE_STOP: u8 = REFERENCE as u8;

// What is carried out for a code.
#[derive(Clone, Copy)]
pub struct Chosen {
    pub kind: u8,
    pub b0: u8,
    pub b1: u8,
    pub b2: u8,
}

// What a step meets. `next` is the address after the code, `size` the ROM's length.
#[derive(Clone, Copy)]
pub struct Met {
    pub kind: u8,
    pub b0: u8,
    pub b1: u8,
    pub b2: u8,
    pub next: u16,
    pub cycles: u8,
    pub size: usize,
}

// 2xH to 7xH with bit 3 at 0, told by the upper five bits: a match takes fewer machine instructions than three comparisons (docs/SPEED.md).
fn is_ref(b: u8) -> bool
    ensures { result ≡ is_ref b }
{
    match b / 8 {
        4 => true,
        6 => true,
        8 => true,
        10 => true,
        12 => true,
        14 => true,
        _ => false,
    }
}

fn area_of(b: u8) -> u16
    ensures { result ≡ area_of b }
{
    (b as u16) / 16 * 16 + (b as u16) % 8 * 2
}

fn choice(kind: u8, b0: u8, b1: u8, b2: u8) -> Chosen
    ensures { result ≡ chosen kind b0 b1 b2 }
{
    Chosen { kind, b0, b1, b2 }
}

// What a reference stands for: TJP for JP, and TCALL for CALL.
fn referred(r: Reference) -> Chosen
    ensures { result ≡ chosen_as (referred_of r) }
{
    match r {
        Reference::Pair(x, y) => choice(PAIR, x, y, 0),
        Reference::Code(x, y) => choice(REFERRED, x, y, 0),
        Reference::Jump(a) => choice(REFERRED, 0xDB, (a / 256 % 64) as u8, (a % 256) as u8),
        Reference::Call(a) => choice(REFERRED, 0xDB, 64 + (a / 256 % 64) as u8, (a % 256) as u8),
        Reference::Nothing => choice(NOTHING, 0, 0, 0),
    }
}

// The write of the first code of a pair.
#[tactic(auto, unfolding(crate::specs::Rules::first_write))]
fn first_write(mem: &DataMemory, c: Cpu, b0: u8) -> u16
    ensures { result ≡ first_write (at mem.now c) b0 }
{
    if b0 == 0xC4 {
        memory::write(
            Width::Four,
            operands::hl_in(mem, c),
            operands::reg_in(mem, c, 0),
        )
    } else {
        let a = operands::pointed_in(mem, c, b0 % 8);
        operands::to_reg(mem, c, 0, operands::read4_in(mem, c, a))
    }
}

// The effect of a pair of Table 5-1.
#[tactic(auto, unfolding(crate::specs::Rules::pair_effect))]
fn pair_effect(mem: &DataMemory, c: Cpu, n: u16, b0: u8, b1: u8) -> Effect
    ensures { result ≡ pair_effect (at mem.now c) n b0 b1 }
{
    let x = first_write(mem, c, b0);
    if b1 / 16 == 5 {
        pairs::then_step_reg(mem, c, n, x, b1 % 8, 15, 1)
    } else if b1 / 16 == 4 {
        pairs::then_step_reg(mem, c, n, x, b1 % 8, 0, 15)
    } else {
        pairs::then_increment_pair(mem, c, n, x, b1 % 8)
    }
}

// The address after a code at pc.
fn after_code(n: usize, pc: u16, info: u8) -> u16
    ensures { result ≡ after_code n pc info }
{
    wrap(n, pc % 4096 + (info as u16) % 4)
}

// A code's cycles. Up to the sum with the clock (step, settle::finish) their count stays a byte.
fn cycles_of(info: u8) -> u8
    ensures { (result ≡ cycles_of info) × (result < 64) }
{
    info / 4
}

// The source that is served now, or HELD_SOURCE. The common step, with no release and no hold to wait for, has one test for both.
#[tactic(auto, unfolding(crate::specs::Rules::enters_now))]
fn enters(mem: &DataMemory, release: u8, hold: u16) -> u8
    ensures { (result ≡ cond (eqb hold 0) (enters_now mem.now release) held_source) × (hold ≡ 0 → result ≤ no_source) }
{
    if (release as u32) + (hold as u32) == 0 {
        return pending::served(mem);
    }
    if hold == 0 {
        pending::NO_SOURCE
    } else {
        HELD_SOURCE
    }
}

fn met_as(x: Chosen, next: u16, cycles: u8, n: usize) -> Met
    ensures { result ≡ met_as x next cycles n }
{
    Met {
        kind: x.kind,
        b0: x.b0,
        b1: x.b1,
        b2: x.b2,
        next: next,
        cycles: cycles,
        size: n,
    }
}

// What is met that is no code.
fn bare(kind: u8, b0: u8, n: usize) -> Met
    ensures { result ≡ bare kind b0 n }
{
    Met {
        kind: kind,
        b0: b0,
        b1: 0,
        b2: 0,
        next: 0,
        cycles: 0,
        size: n,
    }
}

// The code k at pc.
#[tactic(auto, unfolding(fetch::specs::Fetch::code_at, crate::specs::Rules::choice_of, crate::specs::Phases::met_code))]
fn met_code(origin: Origin, code: &[u8], n: usize, pc: u16, k: Code) -> Met
    requires { rom0502 ≤ size_of origin (length code.now) }
    ensures { (result ≡ met_code (code_at origin code.now) n pc k) × (result.cycles < 64) }
{
    let info = k.info;
    if info == 0 {
        return bare(UNDEFINED, 0, n);
    }
    let next = after_code(n, pc, info);
    let cycles = cycles_of(info);
    if is_ref(k.b0) {
        let area = code_at(origin, code, area_of(k.b0));
        met_as(
            referred(references::reference(area.b0, area.b1)),
            next,
            cycles,
            n,
        )
    } else {
        met_as(choice(ITSELF, k.b0, k.b1, k.b2), next, cycles, n)
    }
}

// The first phase: what a step meets once its records are applied.
#[tactic(auto, unfolding(crate::specs::Phases::fetched_of))]
pub fn fetched(origin: Origin, code: &[u8], mem: &DataMemory, c: Cpu) -> Met
    requires { rom0502 ≤ size_of origin (length code.now) }
    ensures { (result ≡ fetched_of (code_at origin code.now) (size_of origin (length code.now)) (at mem.now c)) × (result.cycles < 64) × (result.kind ≡ entry_kind → result.b0 < no_source) }
{
    let n = size(origin, code.len());
    if c.mode == RUNNING {
        let k = enters(mem, c.release, c.timing.hold);
        if k == pending::NO_SOURCE {
            met_code(origin, code, n, c.pc, code_at(origin, code, c.pc))
        } else if k == HELD_SOURCE {
            bare(HELD, 0, n)
        } else {
            bare(ENTRY, k, n)
        }
    } else if c.timing.hold == 0 {
        bare(IDLE, 0, n)
    } else {
        bare(HELD, 0, n)
    }
}

// The second phase: the effect of what is carried out, i the instruction of its bytes.
#[tactic(auto, unfolding(fetch::specs::Fetch::code_at, crate::specs::Phases::executed_of))]
pub fn executed(i: Instr, origin: Origin, code: &[u8], mem: &DataMemory, c: Cpu, x: Met) -> Effect
    requires { rom0502 ≤ size_of origin (length code.now) }
    ensures { result ≡ executed_of (code_at origin code.now) (at mem.now c) i x }
{
    if x.kind == PAIR {
        pair_effect(mem, c, x.next, x.b0, x.b1)
    } else {
        let effect = pick(x.kind == ITSELF, c.effect, 0);
        exec::effect_of(
            i, origin, code, mem, c.pc, c.smb, c.srb, c.mode, effect, c.pins, x.next,
        )
    }
}

// The third phase: the outcome, from what was met and its effect.
#[tactic(auto, unfolding(crate::specs::Phases::resolved_of))]
pub fn resolved(origin: Origin, code: &[u8], mem: &DataMemory, c: Cpu, x: Met, e: Effect) -> Outcome
    requires rom0502_bound { rom0502 ≤ size_of origin (length code.now) }
    requires cycles_bound { x.cycles < 64 }
    requires b0_lt_no_source { x.kind ≡ entry_kind → x.b0 < no_source }
    ensures { result ≡ resolved_of (code_at origin code.now) (at mem.now c) x e }
{
    let kind = x.kind;
    let n = x.size;
    if kind < NOTHING {
        return skip_after(origin, code, n, c, e, x.cycles);
    }
    if kind == NOTHING {
        return Outcome::Stops(REFERENCE_STOP, c.pc);
    }
    if kind == UNDEFINED {
        return Outcome::Stops(CODE_STOP, c.pc);
    }
    if kind == ENTRY {
        let k = x.b0;
        let v = code_at(origin, code, vector_of(k));
        return entry(n, mem, c, k, v);
    }
    if kind == IDLE {
        return idle(mem, c);
    }
    held(c)
}
