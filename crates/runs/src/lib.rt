// Runs over slices: the steps of a budget, with 9 at every undefined code; and what is told of it behind them.
#![tactic(auto)]

pub mod told;

ghost use Rattle.std.specs.Prelude.{◌≡◌, ◌≤◌, length, Ok};
ghost use Rattle.chip.specs.State.{at, nibbles, rom0502};
ghost use Rattle.fetch.specs.Fetch.{size_of};
ghost use Rattle.trace.specs.Trace.{scan_of};
ghost use Rattle.steps.specs.Steps.{steps_over};
ghost use Rattle.steps.specs.Untold.{untold_by};
ghost use Rattle.runs.specs.Answer.{done_as, stopped_as, Finished};

use arrivals::{arrived, arrives};
use chip::{Cpu, DataMemory, Machine};
use decoder::decode;
use fetch::Origin;
use rules::{executed, fetched, resolved};
use step::Stepping;
use step::settle::settled;
use steps::{passed, stretch};

// Places for the scalars before a step's records, which a stop gives back; a step takes the place of its number modulo this. The compiler can't know
// which, and so leaves them in memory: as a variable of their own, or with two places, it carries them through every step (docs/SPEED.md).
const PLACES: u32 = 4;

// How the steps of a budget end. Where all are made, `due` is the due time of the record at the cursor; a stop gives the machine back as its records had
// not come, and says nothing of it.
#[derive(Clone, Copy)]
pub struct Ran {
    pub cpu: Cpu,
    pub due: u64,
    pub end: usize,
    pub steps: u32,
    pub number: u8,
    pub address: u16,
}

// With the number and the address of a stop.
fn stopped(cpu: Cpu, due: u64, end: usize, steps: u32, s: Stepping) -> Ran
    ensures { result ≡ stopped_as cpu due end steps s }
{
    let Stepping::Stopped(number, address) = s else {
        return done(cpu, due, end, steps);
    };
    Ran {
        cpu,
        due,
        end,
        steps,
        number,
        address,
    }
}

// With the whole budget spent.
fn done(cpu: Cpu, due: u64, end: usize, steps: u32) -> Ran
    ensures { result ≡ done_as cpu due end steps }
{
    Ran {
        cpu: cpu,
        due: due,
        end: end,
        steps: steps,
        number: 0,
        address: 0,
    }
}

// At most `budget` steps, the log written from `start` on. `first` is the due time of the record at the cursor.
pub fn run(
    origin: Origin,
    code: &[u8],
    trace: &[u8],
    mem: &mut DataMemory,
    from: Cpu,
    first: u64,
    log: &mut [u8],
    start: usize,
    budget: u32,
) -> Ran
    requires rom0502_bound { rom0502 ≤ size_of origin (length code.now) }
    requires cursor_value { scan_of trace.now from.cursor ≡ Ok first }
    requires start_in_bounds { start ≤ length log.old }
    ensures long { length mem.new ≡ nibbles }
    ensures finished { Finished trace.now (steps_over (untold_by origin code.now trace.now) budget (at mem.old from) log.old start) result mem.new log.new }
{
    let mut saved = [0u8; Machine::NIBBLES];
    let mut undo = [from; PLACES as usize];
    let mut c = from;
    let mut due = first;
    let mut end = start;
    let mut steps: u32 = 0;
    while steps < budget {
        let idle = stretch(origin, mem, c, due, budget - steps);
        if 0 < idle {
            c = passed(mem, c, idle);
            steps += idle;
        } else {
            let kept = arrives(c.clock, due);
            if kept {
                let at = (steps % PLACES) as usize;
                undo[at] = c;
                let r = arrived(origin, code, trace, mem, &mut saved, c, due);
                c = r.cpu;
                due = r.due;
            }
            let x = fetched(origin, code, mem, c);
            let i = decode(x.b0, x.b1, x.b2);
            let e = executed(i, origin, code, mem, c, x);
            let t = resolved(origin, code, mem, c, x, e);
            let s = settled(
                origin,
                code,
                mem,
                &mut saved,
                &mut log[end..],
                c.mode,
                t,
                due,
                kept,
            );
            let Stepping::Moved(next, d, n) = s else {
                if kept {
                    let at = (steps % PLACES) as usize;
                    c = undo[at];
                }
                return stopped(c, due, end, steps, s);
            };
            c = next;
            due = d;
            end += n;
            steps += 1;
        }
    }
    done(c, due, end, steps)
}
