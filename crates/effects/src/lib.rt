// The form of what an instruction does, an effect computed from the state before it, and its operands. What each instruction does stands by family, in
// `arithmetic`, `bits`, `control`, `transfer`, `postincrement` and `stack`; the commit of an effect in `commit`.
#![tactic(auto)]

ghost use Rattle.std.specs.Prelude.{◌≡◌, [], ◌∷◌, ◌<◌};
ghost use Rattle.effects.specs.Effects.{four_of, part_of, doing, selecting, pushing, up_to_end, writes_of, writes_in};

use chip::Cpu;

pub mod operands;

// The end of an effect's writes.
pub const NONE: u16 = 0xFFFF;

// The kinds of an effect: up to four writes, ended by NONE; or a push, part 0 the return address and part 1 FB0H and FB1H, and then up to two writes.
pub const WRITES: u8 = 0;

pub const PUSH: u8 = 1;

// What is skipped: nothing, the next code, the next code if it is ADS A,#im.
pub const NO_SKIP: u8 = 0;

pub const SKIP_NEXT: u8 = 1;

pub const SKIP_ADS: u8 = 2;

// `writes` has four parts of 16 bits, so that an effect goes through few registers.
#[derive(Clone, Copy)]
pub struct Effect {
    pub writes: u64,
    pub next: u16,
    pub skip: u8,
    pub carried: u8,
    pub kind: u8,
    pub smb: u8,
    pub srb: u8,
    pub mode: u8,
}

// A bit of the data memory.
#[derive(Clone, Copy)]
pub struct Spot {
    pub address: u16,
    pub bit: u8,
}

fn four(w0: u16, w1: u16, w2: u16, w3: u16) -> u64
    ensures { result ≡ four_of w0 w1 w2 w3 }
{
    (w0 as u64) + 65536 * (w1 as u64) + 4294967296 * (w2 as u64) + 281474976710656 * (w3 as u64)
}

// Part k of an effect's writes.
pub fn part(x: u64, k: u64) -> u16
    requires { k < 4 }
    ensures { result ≡ part_of x k }
{
    ((x >> (16 * k)) % 65536) as u16
}

pub fn doing(c: Cpu, next: u16, skip: u8, carried: u8, w0: u16, w1: u16, w2: u16, w3: u16) -> Effect
    ensures { result ≡ doing c next skip carried (w0 ∷ w1 ∷ w2 ∷ w3 ∷ []) }
{
    let writes = four(w0, w1, w2, w3);
    Effect {
        writes: writes,
        next: next,
        skip: skip,
        carried: carried,
        kind: WRITES,
        smb: c.smb,
        srb: c.srb,
        mode: c.mode,
    }
}

pub fn selecting(next: u16, smb: u8, srb: u8, mode: u8, w0: u16, w1: u16) -> Effect
    ensures { result ≡ selecting next smb srb mode (w0 ∷ w1 ∷ []) }
{
    let writes = four(w0, w1, NONE, NONE);
    Effect {
        writes: writes,
        next: next,
        skip: NO_SKIP,
        carried: 0,
        kind: WRITES,
        smb: smb,
        srb: srb,
        mode: mode,
    }
}

pub fn pushing(c: Cpu, next: u16, back: u16, psw: u16, w2: u16, w3: u16) -> Effect
    ensures { result ≡ pushing c next back psw (w2 ∷ w3 ∷ []) }
{
    let writes = four(back, psw, w2, w3);
    Effect {
        writes: writes,
        next: next,
        skip: NO_SKIP,
        carried: 0,
        kind: PUSH,
        smb: c.smb,
        srb: c.srb,
        mode: c.mode,
    }
}

fn two_to(w0: u16, w1: u16, i: u16) -> bool
    ensures { result ≡ writes_in i (up_to_end (w0 ∷ w1 ∷ [])) }
{
    if w0 == NONE {
        return false;
    }
    if w0 / 16 == i {
        return true;
    }
    if w1 == NONE {
        return false;
    }
    if w1 / 16 == i {
        return true;
    }
    false
}

fn four_to(w0: u16, w1: u16, w2: u16, w3: u16, i: u16) -> bool
    ensures { result ≡ writes_in i (up_to_end (w0 ∷ w1 ∷ w2 ∷ w3 ∷ [])) }
{
    if w0 == NONE {
        return false;
    }
    if w0 / 16 == i {
        return true;
    }
    if w1 == NONE {
        return false;
    }
    if w1 / 16 == i {
        return true;
    }
    two_to(w2, w3, i)
}

// Whether an effect writes the nibble i; a push itself goes to RAM and the stack pointer.
pub fn writes_to(writes: u64, kind: u8, i: u16) -> bool
    ensures { (e : Effect) → e.writes ≡ writes → e.kind ≡ kind → result ≡ writes_in i (writes_of e) }
{
    let w2 = part(writes, 2);
    let w3 = part(writes, 3);
    if kind == PUSH {
        two_to(w2, w3, i)
    } else {
        four_to(part(writes, 0), part(writes, 1), w2, w3, i)
    }
}
