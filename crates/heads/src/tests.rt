// The tests of a call: counts and lengths first, then each head's own, the lowest head first.
ghost use Rattle.std.specs.Prelude.{◌≡◌, ◌+◌, ◌*◌, ◌≤◌, ◌<◌, length};
ghost use Rattle.numbers.specs.Numbers.{done};
ghost use Rattle.parts.specs.Parts.{together};
ghost use Rattle.image.specs.Image.{image_size};
ghost use Rattle.table.specs.Table.{table_of};
ghost use Rattle.verdicts.specs.Verdicts.{run_verdict};
ghost use Rattle.verdicts.specs.Judged.{Judged};
ghost use Rattle.calls.specs.Calls.{answered};
ghost use Rattle.heads.specs.Heads.{state_at, trace_at, log_at};
ghost use Rattle.heads.specs.Call.{sizes_number};
ghost use Rattle.heads.specs.Tested.{refused_by, unfit_by, Sized, Tested};

use calls::Answer;
use chip::Machine;
use numbers::DONE;
use parts::{MOST, Unfit, judge_heads, share, trace_start};
use verdicts::{Refusal, judge_plain, judge_rom, judge_size, judge_tabled};

// The refusal of a call: its number, and its address in the refusing head's own bytes.
#[derive(Clone, Copy, PartialEq, Eq, Debug)]
pub struct Refused {
    pub number: u32,
    pub address: u32,
}

impl From<Unfit> for Refused {
    ghost from_gives = { λ e r. r ≡ unfit_by e };

    fn from(unfit: Unfit) -> Refused {
        Refused {
            number: unfit.number(),
            address: 0,
        }
    }
}

impl From<Refusal> for Refused {
    ghost from_gives = { λ e r. r ≡ refused_by e };

    fn from(refusal: Refusal) -> Refused {
        Refused {
            number: refusal.number(),
            address: refusal.address(),
        }
    }
}

// For each head the due time of the record at its cursor, and its answer before its first turn.
#[derive(Clone, Copy)]
pub struct Standing {
    pub due: [u64; MOST],
    pub answer: [Answer; MOST],
}

// The answer of a head that has had no turn.
pub fn unturned(start: usize) -> Answer
    ensures { result ≡ answered done 0 0 start }
{
    Answer {
        number: DONE,
        steps: 0,
        address: 0,
        log_end: start,
    }
}

// The tests of counts and lengths alone: 14, 15, 1, 2 and 3.
#[tactic(auto, unfolding(crate::specs::Call::sizes_number))]
fn judge_sizes(
    heads: u32,
    rom: &[u8],
    table: &[u8],
    states: &[u8],
    traces: &[u8],
    lengths: &[u64],
    starts: &[u64],
    q: u32,
) -> Result<(), Refused>
    ensures { Sized result (sizes_number heads rom.now table.now states.now traces.now lengths.now starts.now q) }
{
    judge_heads(heads, traces.len(), lengths, starts, q)?;
    judge_rom(rom)?;
    judge_size(rom, table)?;
    if states.len() != Machine::IMAGE * heads as usize {
        return Err(Refused::from(Refusal::Image));
    }
    Ok(())
}

// A head's own tests. The table is the same for all: once head 0 has it tested, the others have the tests of a run without one.
fn judge_own(
    i: usize,
    rom: &[u8],
    table: &[u8],
    state: &[u8],
    trace: &[u8],
    log: &[u8],
    start: usize,
) -> Result<u64, Refusal>
    requires { 0 < i → table.now ≡ table_of rom.now }
    ensures { Judged (run_verdict rom.now table.now state.now trace.now log.now start) state.now trace.now result }
{
    if i == 0 {
        judge_tabled(rom, table, state, trace, log, start)
    } else {
        judge_plain(rom, state, trace, log, start)
    }
}

// The tests of head i on its own bytes of what is lent.
fn judge_head(
    i: usize,
    rom: &[u8],
    table: &[u8],
    states: &[u8],
    traces: &[u8],
    lengths: &[u64],
    log: &[u8],
    part: usize,
    start: usize,
) -> Result<u64, Refusal>
    requires table_value { 0 < i → table.now ≡ table_of rom.now }
    requires image_size_in_bounds { image_size * i + image_size ≤ length states.now }
    requires i_in_bounds { i < length lengths.now }
    requires lengths_value { together lengths.now ≡ length traces.now }
    requires part_in_bounds { part * i + part ≤ length log.now }
    ensures { Judged (run_verdict rom.now table.now (state_at i states.now) (trace_at i lengths.now traces.now) (log_at i part log.now) start) (state_at i states.now) (trace_at i lengths.now traces.now) result }
{
    let state = Machine::IMAGE * i;
    let trace = trace_start(lengths, i);
    let length = lengths[i] as usize;
    let own = part * i;
    judge_own(
        i,
        rom,
        table,
        &states[state..state + Machine::IMAGE],
        &traces[trace..trace + length],
        &log[own..own + part],
        start,
    )
}

// Every test, in order.
pub fn tested(
    heads: u32,
    rom: &[u8],
    table: &[u8],
    states: &[u8],
    traces: &[u8],
    lengths: &[u64],
    log: &[u8],
    starts: &[u64],
    q: u32,
) -> Result<Standing, Refused>
    ensures { Tested (record { count = heads; rom = rom.now; table = table.now; states = states.now; traces = traces.now; lengths = lengths.now; log = log.now; starts = starts.now }) q result }
{
    judge_sizes(heads, rom, table, states, traces, lengths, starts, q)?;
    let count = heads as usize;
    let part = share(log.len(), count);
    let mut due = [0u64; MOST];
    let mut answer = [unturned(0); MOST];
    for i in 0..count {
        let start = starts[i] as usize;
        due[i] = judge_head(i, rom, table, states, traces, lengths, log, part, start)?;
        answer[i] = unturned(start);
    }
    Ok(Standing { due, answer })
}
