// A record of the trace: the reader, which is handed the trace from a record on and answers the record with its length; the shape of a record that was read
// before; and the pins after a record.
#![tactic(auto)]

ghost use Rattle.std.specs.Prelude.{◌≡◌, ◌≤◌, length, get_or};
ghost use Rattle.record.specs.Record.{width, reading_of, pins_after};
ghost use Rattle.record.specs.Shape.{shape_of};

mod fields; // fields.rt: a record from its bytes

use fields::{port_after, read_as, wait_of, width_of};
use words::word;

// A record of the trace: after a wait, pins change, and there may be a reset.
#[derive(Clone, Copy)]
pub struct Record {
    pub wait: u16, // cycles after the record before it
    pub ports: u8, // bits 0 to 6: the ports P0 to P6 that have a field
    pub reset: bool, // a reset pulse
    pub pins: u32, // a nibble for each port, P0 lowest; 0 where the record has no field
}

// What a record's map says of it.
#[derive(Clone, Copy)]
pub struct Shape {
    pub low: u8, // the map's low byte: bits 0 to 6 the ports that have a field, bit 7 a reset
    pub wait: u16, // 0 where the map has none
    pub size: usize, // the record's length
}

// The record at the start of s, with its length; none where it is malformed.
pub fn read(s: &[u8]) -> Option<(Record, usize)>
    ensures { result ≡ reading_of s.now }
{
    let [lo, hi, ..] = *s else {
        return None;
    };
    if hi > 1 || word(lo, hi) == 0 {
        return None;
    }
    read_as(s, lo, hi)
}

// The shape of a record that the reader found at the start of s: nothing is tested again.
pub fn shape_of(s: &[u8]) -> Shape
    requires { (get_or s.now 1 0 ≤ 1) × (width (get_or s.now 0 0) (get_or s.now 1 0) ≤ length s.now) }
    ensures { result ≡ shape_of s.now }
{
    let low = s[0];
    let hi = s[1];
    Shape {
        low,
        wait: wait_of(s, hi),
        size: width_of(low, hi),
    }
}

// The pins after the record, a nibble for each port: a port that has a field takes it, the others keep theirs.
#[tactic(auto, unfolding(crate::specs::Record::pins_after))]
pub fn pins_after(old: u32, r: Record) -> u32
    ensures { result ≡ pins_after old r }
{
    let p0 = port_after(old, r, 1, 1);
    let p1 = port_after(old, r, 2, 16);
    let p2 = port_after(old, r, 4, 256);
    let p3 = port_after(old, r, 8, 4096);
    let p4 = port_after(old, r, 16, 65536);
    let p5 = port_after(old, r, 32, 1048576);
    let p6 = port_after(old, r, 64, 16777216);
    p0 + 16 * p1 + 256 * p2 + 4096 * p3 + 65536 * p4 + 1048576 * p5 + 16777216 * p6
}
