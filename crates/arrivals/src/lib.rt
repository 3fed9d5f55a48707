// The records that are due, applied in turn.
#![tactic(auto)]

ghost use Rattle.std.specs.Prelude.{◌≡◌, ◌≤◌, leb, length, Ok};
ghost use Rattle.chip.specs.State.{at, nibbles, rom0502};
ghost use Rattle.fetch.specs.Fetch.{size_of, code_at};
ghost use Rattle.trace.specs.Trace.{scan_of};
ghost use Rattle.arrivals.specs.Arrivals.{Advanced, Applied, Arrived};

pub mod nibbles; // nibbles.rt: the nibbles kept beside the machine

use chip::{Cpu, DataMemory};
use events::records;
use fetch::{Code, Origin, code_at, size};
use nibbles::copy;
use trace::NEVER;

// The scalars, and the due time of the record at the cursor.
#[derive(Clone, Copy)]
pub struct Due {
    pub cpu: Cpu,
    pub due: u64,
}

fn wide(x: u32) -> u64
    ensures { (result ≡ x) × (result ≤ 4294967295) }
{
    x as u64
}

// One record, which is due: v is the code at 0000H and n the ROM's length.
fn advance(v: Code, n: usize, trace: &[u8], mem: &mut DataMemory, c: Cpu, due: u64) -> Due
    requires cursor_value { scan_of trace.now c.cursor ≡ Ok due }
    requires due_le_clock { due ≤ c.clock }
    ensures { Advanced v n trace.now (at mem.old c) result mem.new }
{
    let Some((r, k)) = trace::next_record(trace, c.cursor) else {
        return Due { cpu: c, due: NEVER };
    };
    let d = records::apply(v, n, mem, c, r, k as u32);
    let next = trace::due_next(trace, d.cursor, due);
    Due { cpu: d, due: next }
}

// Every record that is due.
fn apply_due(v: Code, n: usize, trace: &[u8], mem: &mut DataMemory, from: Cpu, first: u64) -> Due
    requires { scan_of trace.now from.cursor ≡ Ok first }
    ensures { Applied v n trace.now (at mem.old from) result mem.new }
{
    let mut c = from;
    let mut due = first;
    while due <= wide(c.clock) {
        let r = advance(v, n, trace, mem, c, due);
        c = r.cpu;
        due = r.due;
    }
    Due { cpu: c, due: due }
}

// Whether a record is due.
pub fn arrives(clock: u32, due: u64) -> bool
    ensures { result ≡ leb due clock }
{
    due <= wide(clock)
}

// The machine with its due records applied, of which there are some; the nibbles before them are kept.
pub fn arrived(
    origin: Origin,
    code: &[u8],
    trace: &[u8],
    mem: &mut DataMemory,
    saved: &mut DataMemory,
    c: Cpu,
    due: u64,
) -> Due
    requires rom0502_bound { rom0502 ≤ size_of origin (length code.now) }
    requires cursor_value { scan_of trace.now c.cursor ≡ Ok due }
    ensures { Arrived (code_at origin code.now 0) (size_of origin (length code.now)) trace.now (at mem.old c) result mem.new saved.new }
{
    copy(mem, saved);
    let v = code_at(origin, code, 0);
    let n = size(origin, code.len());
    apply_due(v, n, trace, mem, c, due)
}
