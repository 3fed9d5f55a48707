// The calls of documents 01 and 02 over byte buffers. The crate sam47_c offers each to C under the same name.
#![tactic(auto)]

ghost use Rattle.std.specs.Prelude.{◌≡◌};
ghost use Rattle.calls.specs.Calls.{plain_call, table_call, Call};
ghost use Rattle.verdicts.specs.Judged.{number_in};
ghost use Rattle.startup.specs.Startup.{predecode_number, predecode_table, fresh_number, fresh_state};
ghost use Rattle.tidy.specs.Tidy.{tidy_answer, tidy_buffer};
ghost use Rattle.heads.specs.Call as dispatching;
ghost use Rattle.litres.specs.Lines.{lines_of};

use calls::Answer;
use heads::HeadsAnswer;
use litres::Lines;
use numbers::DONE;
use verdicts::Refusal;
use written::Written;

// The number that a call answers.
fn told(tests: Result<(), Refusal>) -> u32
    ensures { result ≡ number_in tests }
{
    match tests {
        Ok(()) => DONE,
        Err(refusal) => refusal.number(),
    }
}

// The table of a ROM; refuses with 1 or 2, or answers 0.
pub fn sam47_predecode(rom: &[u8], table: &mut [u8]) -> u32
    ensures { (result ≡ predecode_number rom.now table.old) × (table.new ≡ predecode_table rom.now table.old) }
{
    told(startup::predecode(rom, table))
}

// The fresh state of a ROM; refuses with 1 or 3, or answers 0.
pub fn sam47_fresh(rom: &[u8], state: &mut [u8]) -> u32
    ensures { (result ≡ fresh_number rom.now state.old) × (state.new ≡ fresh_state rom.now state.old) }
{
    told(startup::fresh_state(rom, state))
}

// The plain run: at most `budget` steps that read the ROM, the log written from `log_start` on.
pub fn sam47_plain_run(
    rom: &[u8],
    state: &mut [u8],
    trace: &[u8],
    log: &mut [u8],
    log_start: usize,
    budget: u32,
) -> Answer
    ensures { Call (plain_call rom.now state.old trace.now log.old log_start budget) result state.new log.new }
{
    calls::plain_run(rom, state, trace, log, log_start, budget)
}

// The table-driven run: the same steps, read from the table that predecode made of the ROM.
pub fn sam47_table_run(
    rom: &[u8],
    table: &[u8],
    state: &mut [u8],
    trace: &[u8],
    log: &mut [u8],
    log_start: usize,
    budget: u32,
) -> Answer
    ensures { Call (table_call rom.now table.now state.old trace.now log.old log_start budget) result state.new log.new }
{
    calls::table_run(rom, table, state, trace, log, log_start, budget)
}

// The tidy form of a trace, from the start of `out` on; refuses with 6 or 13.
pub fn sam47_tidy(trace: &[u8], out: &mut [u8]) -> Written
    ensures { (result ≡ tidy_answer trace.now out.old) × (out.new ≡ tidy_buffer trace.now out.old) }
{
    tidy::tidy(trace, out)
}

// Turns of q steps for several heads, in one call; refuses with 14, 15, or 1 to 8.
pub fn sam47_dispatch(
    heads: u32,
    rom: &[u8],
    table: &[u8],
    states: &mut [u8],
    traces: &[u8],
    trace_lens: &[u64],
    log: &mut [u8],
    log_starts: &[u64],
    q: u32,
    turns: u32,
) -> HeadsAnswer
    ensures { dispatching.Call (dispatching.dispatch_of (record { count = heads; rom = rom.now; table = table.now; states = states.old; traces = traces.now; lengths = trace_lens.now; log = log.old; starts = log_starts.now }) q turns) result states.new log.new }
{
    heads::dispatch(
        heads, rom, table, states, traces, trace_lens, log, log_starts, q, turns,
    )
}

// Litres by farm: the rising changes of P4 bit 0 in a log, by the farms that begin at the marks; refuses with 16.
pub fn sam47_litres(log: &[u8], marks: &[u32]) -> Lines
    ensures { result ≡ lines_of log.now marks.now }
{
    litres::litres(log, marks)
}
