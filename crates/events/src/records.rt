// The records that are due: pins, then edges, then reset.
ghost use Rattle.std.specs.Prelude.{◌≡◌, ◌+◌, ◌<◌, ◌≤◌, length};
ghost use Rattle.chip.specs.State.{at};
ghost use Rattle.events.specs.Records.{edge_of, external_of, key_of, edges_of, moved_on, record_applied};

use chip::memory::{nib, put_at};
use chip::ports::pins_of;
use chip::{Cpu, DataMemory, locations, reset};
use fetch::Code;
use record::Record;

// An edge from an old to a new level by a mode: 0 rising, 1 falling, 2 both, 3 none.
fn edge(mode: u8, old: u8, new: u8) -> u8
    requires { new ≤ 1 }
    ensures { (result ≡ edge_of mode old new) × (result ≤ 1) }
{
    if old == new {
        return 0;
    }
    if mode == 3 {
        return 0;
    }
    if mode == 2 {
        return 1;
    }
    if mode == 1 { 1 - new } else { new }
}

// FBEH after the pins of P1 went from old to new.
#[tactic(auto, unfolding(crate::specs::Records::external_of))]
fn external(mem: &DataMemory, old: u8, new: u8) -> u8
    ensures { result ≡ external_of mem.now old new }
{
    let e0 = edge(nib(mem, locations::IMOD0) % 4, old % 2, new % 2);
    let e1 = edge(nib(mem, locations::IMOD1) % 2, old / 2 % 2, new / 2 % 2);
    nib(mem, locations::INT01) | (e0 + 4 * e1)
}

// FBFH after the pins of P6 went from old to new.
#[tactic(auto, unfolding(crate::specs::Records::key_of))]
fn key(mem: &DataMemory, old: u8, new: u8) -> u8
    requires { new < 16 }
    ensures { result ≡ key_of mem.now old new }
{
    let falling = old & (15 - new) & (nib(mem, locations::IMODK) % 8);
    nib(mem, locations::INTK) | chip::pick(falling == 0, 0, 1)
}

// The request flags that the pins' edges set.
#[tactic(auto, unfolding(crate::specs::Records::edges_of))]
fn edges(mem: &mut DataMemory, old: u32, new: u32)
    ensures { mem.new ≡ edges_of mem.old old new }
{
    let e = external(mem, pins_of(old, 1), pins_of(new, 1));
    let k = key(mem, pins_of(old, 6), pins_of(new, 6));
    put_at(mem, locations::INT01, e);
    put_at(mem, locations::INTK, k);
}

fn moved_on(c: Cpu, pins: u32, k: u32) -> Cpu
    requires { c.cursor + k < 4294967296 }
    ensures { result ≡ moved_on c pins k }
{
    let mut d = c;
    d.pins = pins;
    d.cursor = c.cursor + k;
    d
}

// A record of k bytes applied; v is the code at 0000H, the reset vector, and n the ROM's length.
#[tactic(auto, unfolding(crate::specs::Records::record_applied))]
pub fn apply(v: Code, n: usize, mem: &mut DataMemory, c: Cpu, r: Record, k: u32) -> Cpu
    requires { c.cursor + k < 4294967296 }
    ensures { at mem.new result ≡ record_applied v n (at mem.old c) r k }
{
    let pins = record::pins_after(c.pins, r);
    edges(mem, c.pins, pins);
    let d = moved_on(c, pins, k);
    if r.reset {
        reset::reset_mem(mem, v.b0);
        reset::reset_cpu(d, n, v.b0, v.b1)
    } else {
        d
    }
}
