// The log of the ports: a record of six bytes for each driven value that a step changed.
#![tactic(auto)]

ghost use Rattle.std.specs.Prelude.{◌≡◌, [], ◌∷◌, ℕ, ◌<◌, ◌≤◌, length};
ghost use Rattle.chip.specs.Ports.{latched_of, pins_of};
ghost use Rattle.chip.specs.State.{nibbles};
ghost use Rattle.effects.specs.Effects.{up_to_end};
ghost use Rattle.portlog.specs.Log.{written, log_record, change_of, changes_of, logged, drives_of, is_port, port_in, writes_port};

use chip::DataMemory;
use chip::locations::BANK_15;
use chip::ports::{driven, pins_of};
use effects::{Effect, NONE, PUSH, part};

// The most bytes that a step logs: a record for each of the five ports.
pub const MOST: usize = 30;

// What the logged ports drive, as one number: a nibble for each port, P0's lowest.
#[tactic(auto, unfolding(crate::specs::Log::drives_of))]
pub fn drives(mem: &DataMemory) -> u32
    ensures { result ≡ drives_of (latched_of mem.now) }
{
    driven_at(mem, 0)
        + (4096 * driven_at(mem, 3)
            + (65536 * driven_at(mem, 4)
                + (1048576 * driven_at(mem, 5) + 16777216 * driven_at(mem, 6))))
}

fn driven_at(mem: &DataMemory, p: u16) -> u32
    requires { p < 7 }
    ensures { (result ≡ latched_of mem.now p) × (result < 16) }
{
    driven(mem, p) as u32
}

// How many bytes the record of port p takes, where the ports drove `was` and drive `is`.
#[tactic(auto, unfolding(crate::specs::Log::change_of))]
fn size_at(was: u32, is: u32, p: u8) -> usize
    requires { p < 7 }
    ensures { ((clock : ℕ) → result ≡ length (change_of clock (pins_of was) (pins_of is) p)) × (result ≤ 6) }
{
    if pins_of(was, p as u16) == pins_of(is, p as u16) {
        0
    } else {
        6
    }
}

// How many bytes a step logs, at any clock.
#[tactic(auto, unfolding(crate::specs::Log::logged, crate::specs::Log::changes_of))]
pub fn size(was: u32, is: u32) -> usize
    ensures { (clock : ℕ) → result ≡ length (logged clock (pins_of was) (pins_of is)) }
{
    size_at(was, is, 0)
        + (size_at(was, is, 3)
            + (size_at(was, is, 4) + (size_at(was, is, 5) + size_at(was, is, 6))))
}

// Writes a record at the start of the log that it is lent.
fn put_record(log: &mut [u8], clock: u32, p: u8, v: u8)
    requires { 6 ≤ length log.old }
    ensures { log.new ≡ written log.old 0 (log_record clock p v) }
{
    log[0] = (clock % 256) as u8;
    log[1] = (clock / 256 % 256) as u8;
    log[2] = (clock / 65536 % 256) as u8;
    log[3] = (clock / 16777216) as u8;
    log[4] = p;
    log[5] = v;
}

// Writes the record of port p, if there is one, at the start of the log; the answer is how many bytes it took.
#[tactic(auto, unfolding(crate::specs::Log::change_of))]
fn note(log: &mut [u8], clock: u32, was: u32, is: u32, p: u8) -> usize
    requires p_bound { p < 7 }
    requires p_in_bounds { length (change_of clock (pins_of was) (pins_of is) p) ≤ length log.old }
    ensures { (log.new ≡ written log.old 0 (change_of clock (pins_of was) (pins_of is) p)) × (result ≡ length (change_of clock (pins_of was) (pins_of is) p)) }
{
    let new = pins_of(is, p as u16);
    if pins_of(was, p as u16) == new {
        0
    } else {
        put_record(log, clock, p, new);
        6
    }
}

// The records of P5 and P6: each further record goes to the part of the log behind the one before it.
fn note5(log: &mut [u8], clock: u32, was: u32, is: u32) -> usize
    requires { length (changes_of clock (pins_of was) (pins_of is) (5 ∷ 6 ∷ [])) ≤ length log.old }
    ensures { (log.new ≡ written log.old 0 (changes_of clock (pins_of was) (pins_of is) (5 ∷ 6 ∷ []))) × (result ≡ length (changes_of clock (pins_of was) (pins_of is) (5 ∷ 6 ∷ []))) }
{
    let k = note(log, clock, was, is, 5);
    let n = note(&mut log[k..], clock, was, is, 6);
    k + n
}

fn note4(log: &mut [u8], clock: u32, was: u32, is: u32) -> usize
    requires { length (changes_of clock (pins_of was) (pins_of is) (4 ∷ 5 ∷ 6 ∷ [])) ≤ length log.old }
    ensures { (log.new ≡ written log.old 0 (changes_of clock (pins_of was) (pins_of is) (4 ∷ 5 ∷ 6 ∷ []))) × (result ≡ length (changes_of clock (pins_of was) (pins_of is) (4 ∷ 5 ∷ 6 ∷ []))) }
{
    let k = note(log, clock, was, is, 4);
    let n = note5(&mut log[k..], clock, was, is);
    k + n
}

fn note3(log: &mut [u8], clock: u32, was: u32, is: u32) -> usize
    requires { length (changes_of clock (pins_of was) (pins_of is) (3 ∷ 4 ∷ 5 ∷ 6 ∷ [])) ≤ length log.old }
    ensures { (log.new ≡ written log.old 0 (changes_of clock (pins_of was) (pins_of is) (3 ∷ 4 ∷ 5 ∷ 6 ∷ []))) × (result ≡ length (changes_of clock (pins_of was) (pins_of is) (3 ∷ 4 ∷ 5 ∷ 6 ∷ []))) }
{
    let k = note(log, clock, was, is, 3);
    let n = note4(&mut log[k..], clock, was, is);
    k + n
}

// Writes a step's records at the start of the log that it is lent; the answer is how many bytes they took.
#[tactic(auto, unfolding(crate::specs::Log::logged))]
pub fn notes(log: &mut [u8], clock: u32, was: u32, is: u32) -> usize
    requires { length (logged clock (pins_of was) (pins_of is)) ≤ length log.old }
    ensures { (log.new ≡ written log.old 0 (logged clock (pins_of was) (pins_of is))) × (result ≡ length (logged clock (pins_of was) (pins_of is))) }
{
    let k = note(log, clock, was, is, 0);
    let n = note3(&mut log[k..], clock, was, is);
    k + n
}

// The 32 nibbles of FE0H to FFFH.
const PORTS: u16 = (0xFE0 - BANK_15) / 32;

fn is_port(x: u16) -> bool
    ensures { result ≡ is_port x }
{
    x / 512 == PORTS
}

fn port_in_two(w0: u16, w1: u16) -> bool
    ensures { result ≡ port_in (up_to_end (w0 ∷ w1 ∷ [])) }
{
    if w0 == NONE {
        return false;
    }
    if is_port(w0) {
        return true;
    }
    if w1 == NONE {
        return false;
    }
    if is_port(w1) {
        return true;
    }
    false
}

fn port_in_four(w0: u16, w1: u16, w2: u16, w3: u16) -> bool
    ensures { result ≡ port_in (up_to_end (w0 ∷ w1 ∷ w2 ∷ w3 ∷ [])) }
{
    if w0 == NONE {
        return false;
    }
    if is_port(w0) {
        return true;
    }
    if w1 == NONE {
        return false;
    }
    if is_port(w1) {
        return true;
    }
    port_in_two(w2, w3)
}

// Whether an effect may change what a port drives.
#[tactic(auto, unfolding(crate::specs::Log::writes_port))]
pub fn writes_port(e: Effect) -> bool
    ensures { result ≡ writes_port e }
{
    let w2 = part(e.writes, 2);
    let w3 = part(e.writes, 3);
    if e.kind == PUSH {
        port_in_two(w2, w3)
    } else {
        port_in_four(part(e.writes, 0), part(e.writes, 1), w2, w3)
    }
}
