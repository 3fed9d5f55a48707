// A record from its bytes: the map's bits, the wait, and a field of pins for each port that has one; and a port's pins after the record.
// `lo` is the map's low byte and `hi` its high byte.
ghost use Rattle.std.specs.Prelude.{◌≡◌, true, cond, not, ◌&&◌, ◌||◌, ℕ, ◌+◌, ◌*◌, ◌/◌, ◌%◌, ◌<◌, ◌≤◌, eqb, ltb, length, get_or};
ghost use Rattle.pins.specs.Pins.{packed};
ghost use Rattle.record.specs.Record.{width, wait, field, sound, record_of, read_as};
ghost use Rattle.record.specs.Fields.{fields_of, port_of, Nibbles};

use super::Record;
use words::word_at;

// What the record says of the pins of P0 to P6, a byte for each port: 0 where it has no field.
#[derive(Clone, Copy)]
pub(crate) struct Fields {
    pub(crate) p0: u8,
    pub(crate) p1: u8,
    pub(crate) p2: u8,
    pub(crate) p3: u8,
    pub(crate) p4: u8,
    pub(crate) p5: u8,
    pub(crate) p6: u8,
}

// The bit of m whose weight is d.
pub(crate) fn bit(m: u8, d: u8) -> usize
    requires { 0 < d }
    ensures { (result ≡ m / d % 2) × (result ≤ 1) }
{
    (m / d % 2) as usize
}

// The wait stands right after the map.
pub(crate) fn wait_of(s: &[u8], hi: u8) -> u16
    requires { 2 + 2 * hi ≤ length s.now }
    ensures { result ≡ wait s.now hi }
{
    if hi == 1 { word_at(s, 2) } else { 0 }
}

// The record's length: the map, two bytes of wait if the map has bit 8, and a byte for each port.
pub(crate) fn width_of(lo: u8, hi: u8) -> usize
    requires { hi ≤ 1 }
    ensures { (result ≡ width lo hi) × (result ≤ 11) }
{
    2 + 2 * (hi as usize)
        + bit(lo, 1)
        + bit(lo, 2)
        + bit(lo, 4)
        + bit(lo, 8)
        + bit(lo, 16)
        + bit(lo, 32)
        + bit(lo, 64)
}

// The byte at `at`, where the port has a field.
fn pins(s: &[u8], at: usize, on: usize) -> u8
    requires { at + on ≤ length s.now }
    ensures { result ≡ cond (eqb on 1) (get_or s.now at 0) 0 }
{
    if on == 1 { s[at] } else { 0 }
}

// The fields, each read where the ones before it end.
pub(crate) fn fields_at(s: &[u8], lo: u8, hi: u8) -> Fields
    requires { (hi ≤ 1) × (width lo hi ≤ length s.now) }
    ensures { result ≡ fields_of (field s.now lo hi) }
{
    let b0 = bit(lo, 1);
    let b1 = bit(lo, 2);
    let b2 = bit(lo, 4);
    let b3 = bit(lo, 8);
    let b4 = bit(lo, 16);
    let b5 = bit(lo, 32);
    let b6 = bit(lo, 64);
    let o0 = 2 + 2 * (hi as usize);
    let o1 = o0 + b0;
    let o2 = o1 + b1;
    let o3 = o2 + b2;
    let o4 = o3 + b3;
    let o5 = o4 + b4;
    let o6 = o5 + b5;
    let p0 = pins(s, o0, b0);
    let p1 = pins(s, o1, b1);
    let p2 = pins(s, o2, b2);
    let p3 = pins(s, o3, b3);
    let p4 = pins(s, o4, b4);
    let p5 = pins(s, o5, b5);
    let p6 = pins(s, o6, b6);
    Fields {
        p0,
        p1,
        p2,
        p3,
        p4,
        p5,
        p6,
    }
}

// P0 and P3 have three pins, P1 two, the others four; the bits of absent pins are 0.
#[tactic(auto, unfolding(crate::specs::Record::sound))]
pub(crate) fn is_sound(hi: u8, wait: u16, f: Fields) -> bool
    ensures { result ≡ sound hi wait (port_of f) }
{
    let waits = hi == 0 || wait != 0;
    waits && f.p0 < 8 && f.p1 < 4 && f.p2 < 16 && f.p3 < 8 && f.p4 < 16 && f.p5 < 16 && f.p6 < 16
}

// A nibble for each port, lowest first.
fn pack(f: Fields) -> u32
    requires { Nibbles (port_of f) }
    ensures { result ≡ packed (port_of f) }
{
    let low = u32::from(f.p0)
        + 16 * u32::from(f.p1)
        + 256 * u32::from(f.p2)
        + 4096 * u32::from(f.p3);
    low + 65536 * u32::from(f.p4) + 1048576 * u32::from(f.p5) + 16777216 * u32::from(f.p6)
}

// The record of a map's low byte, a wait and sound fields.
pub(crate) fn record_of(lo: u8, wait: u16, f: Fields) -> Record
    requires { Nibbles (port_of f) }
    ensures { result ≡ record_of lo wait (port_of f) }
{
    Record {
        wait,
        ports: lo % 128,
        reset: bit(lo, 128) == 1,
        pins: pack(f),
    }
}

// The record with the map lo, hi at the start of s.
pub(crate) fn read_as(s: &[u8], lo: u8, hi: u8) -> Option<(Record, usize)>
    requires { hi ≤ 1 }
    ensures { result ≡ read_as s.now lo hi }
{
    let n = width_of(lo, hi);
    if s.len() < n {
        return None;
    }
    let w = wait_of(s, hi);
    let f = fields_at(s, lo, hi);
    if is_sound(hi, w, f) {
        Some((record_of(lo, w, f), n))
    } else {
        None
    }
}

// Port k's nibble after a record, d being 2 to the power k and w 16 to the power k.
pub(crate) fn port_after(old: u32, r: Record, d: u8, w: u32) -> u32
    requires { (0 < d) × (0 < w) }
    ensures { (result ≡ cond (eqb (r.ports / d % 2) 1) (r.pins / w % 16) (old / w % 16)) × (result < 16) }
{
    if bit(r.ports, d) == 1 {
        return r.pins / w % 16;
    }
    old / w % 16
}
