// The image, a state as bytes: its scalars, and number 4's field test.
#![tactic(auto)]

ghost use Rattle.std.specs.Prelude.{◌≡◌, ◌++◌, ◌+◌, ◌-◌, ◌*◌, ◌%◌, ◌≤◌, take};
ghost use Rattle.std.proofs.lemmas.List.Edits.{sets};
ghost use Rattle.chip.specs.State.{nibbles};
ghost use Rattle.image.specs.Image.{image_size, at_pins, pins_in, cpu_of, pin_bytes, scalars_of};
ghost use Rattle.image.specs.Image.{nibble_fits, nibble_fault, fields, pin_fields, timing_fields, first_over, fault_of, found};

use chip::ports::pins_of;
use chip::reset::HELD_CYCLES;
use chip::{Cpu, Machine, Timing, locations};
use words::{long, long_at, put_long, put_word, word_at};

// A state as bytes: the nibbles, then the fields.
pub type Image = [u8; Machine::IMAGE];

// Where the fields stand, behind the nibbles.
const PC: usize = Machine::NIBBLES;

const SMB: usize = PC + 2;

const SRB: usize = SMB + 1;

const MODE: usize = SRB + 1;

const EFFECT: usize = MODE + 1;

const RELEASE: usize = EFFECT + 1;

const P0: usize = RELEASE + 1;

const P1: usize = P0 + 1;

const P2: usize = P1 + 1;

const P3: usize = P2 + 1;

const P4: usize = P3 + 1;

const P5: usize = P4 + 1;

const P6: usize = P5 + 1;

const CLOCK: usize = P6 + 1;

const CURSOR: usize = CLOCK + 4;

const TIMING: usize = CURSOR + 4;

const HOLD: usize = TIMING + 2;

// The pins of four ports, a nibble for each.
fn four_pins(a: u8, b: u8, c: u8, d: u8) -> u16
    ensures { result ≡ a % 16 + 16 * (b % 16) + 256 * (c % 16) + 4096 * (d % 16) }
{
    (a as u16) % 16 + 16 * ((b as u16) % 16) + 256 * ((c as u16) % 16) + 4096 * ((d as u16) % 16)
}

#[tactic(auto, unfolding(crate::specs::Image::pins_in))]
fn pins_in(s: &Image) -> u32
    ensures { result ≡ pins_in s.now }
{
    let low = four_pins(s[P0], s[P1], s[P2], s[P3]);
    let high = four_pins(s[P4], s[P5], s[P6], 0);
    long(low, high)
}

// The scalars of an image.
#[tactic(auto, unfolding(crate::specs::Image::cpu_of))]
pub fn load(s: &Image) -> Cpu
    ensures { result ≡ cpu_of s.now }
{
    let pc = word_at(s, PC);
    let pins = pins_in(s);
    let clock = long_at(s, CLOCK);
    let cursor = long_at(s, CURSOR);
    let basic = word_at(s, TIMING);
    let hold = word_at(s, HOLD);
    Cpu {
        pc,
        smb: s[SMB],
        srb: s[SRB],
        mode: s[MODE],
        effect: s[EFFECT],
        release: s[RELEASE],
        pins,
        clock,
        cursor,
        timing: Timing { basic, hold },
    }
}

fn store_pins(pins: u32, s: &mut Image)
    ensures { s.new ≡ sets s.old at_pins (pin_bytes pins) }
{
    s[P0] = pins_of(pins, 0);
    s[P1] = pins_of(pins, 1);
    s[P2] = pins_of(pins, 2);
    s[P3] = pins_of(pins, 3);
    s[P4] = pins_of(pins, 4);
    s[P5] = pins_of(pins, 5);
    s[P6] = pins_of(pins, 6);
}

// Stores the scalars; the nibbles stay.
#[tactic(auto, unfolding(crate::specs::Image::scalars_of))]
pub fn store(c: Cpu, s: &mut Image)
    ensures { s.new ≡ take nibbles s.old ++ scalars_of c }
{
    put_word(s, PC, c.pc);
    s[SMB] = c.smb;
    s[SRB] = c.srb;
    s[MODE] = c.mode;
    s[EFFECT] = c.effect;
    s[RELEASE] = c.release;
    store_pins(c.pins, s);
    put_long(s, CLOCK, c.clock);
    put_long(s, CURSOR, c.cursor);
    put_word(s, TIMING, c.timing.basic);
    put_word(s, HOLD, c.timing.hold);
}

fn nibble_fits(i: usize, b: u8) -> bool
    ensures { result ≡ nibble_fits i b }
{
    if 15 < b {
        return false;
    }
    if i == locations::SP_LOW as usize {
        b % 2 == 0
    } else {
        true
    }
}

// The first byte that is no nibble.
fn nibble_fault(s: &Image) -> Option<usize>
    ensures { result ≡ found nibbles (nibble_fault nibbles 0 s.now) }
{
    // Few states have one, and this loop, which doesn't ask where, looks at many bytes at a time.
    let mut fit = s[locations::SP_LOW as usize] % 2 == 0;
    for &b in &s[..Machine::NIBBLES] {
        fit &= b <= 15;
    }
    if fit {
        return None;
    }
    for (i, &b) in s[..Machine::NIBBLES].iter().enumerate() {
        if !nibble_fits(i, b) {
            return Some(i);
        }
    }
    None
}

// Bit 15 of what the basic timer keeps has no meaning, and is 0; no more remains of the hold than a reset makes it.
#[tactic(auto, unfolding(crate::specs::Image::timing_fields))]
fn timing_fault(s: &Image) -> Option<usize>
    ensures { result ≡ found image_size (first_over timing_fields s.now) }
{
    if 0x7FFF < word_at(s, TIMING) {
        return Some(TIMING);
    }
    if HELD_CYCLES < word_at(s, HOLD) {
        return Some(HOLD);
    }
    None
}

// The pins, and what stands behind them.
#[tactic(auto, unfolding(crate::specs::Image::pin_fields))]
fn pin_fault(s: &Image) -> Option<usize>
    ensures { result ≡ found image_size (first_over (pin_fields ++ timing_fields) s.now) }
{
    if 7 < s[P0] {
        return Some(P0);
    }
    if 3 < s[P1] {
        return Some(P1);
    }
    if 15 < s[P2] {
        return Some(P2);
    }
    if 7 < s[P3] {
        return Some(P3);
    }
    if 15 < s[P4] {
        return Some(P4);
    }
    if 15 < s[P5] {
        return Some(P5);
    }
    if 15 < s[P6] {
        return Some(P6);
    }
    timing_fault(s)
}

#[tactic(auto, unfolding(crate::specs::Image::fields))]
fn field_fault(s: &Image, n: usize) -> Option<usize>
    ensures { result ≡ found image_size (first_over (fields n) s.now) }
{
    let last = n.saturating_sub(1);
    if last < word_at(s, PC) as usize {
        return Some(PC);
    }
    if 15 < s[SMB] {
        return Some(SMB);
    }
    if 3 < s[SRB] {
        return Some(SRB);
    }
    if 2 < s[MODE] {
        return Some(MODE);
    }
    if 3 < s[EFFECT] {
        return Some(EFFECT);
    }
    if 2 < s[RELEASE] {
        return Some(RELEASE);
    }
    pin_fault(s)
}

// Number 4: the lowest offending offset for a ROM of n bytes.
#[tactic(auto, unfolding(crate::specs::Image::fault_of))]
pub fn fault(s: &Image, n: usize) -> Option<usize>
    ensures { result ≡ found image_size (fault_of s.now n) }
{
    nibble_fault(s).or_else(|| field_fault(s, n))
}
