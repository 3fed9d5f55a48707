// The plain run and the table-driven run: the tests of document 01, and the steps where what is given is accepted.
#![tactic(auto)]

ghost use Rattle.std.specs.Prelude.{◌≡◌, ◌≤◌, length, Ok};
ghost use Rattle.chip.specs.State.{rom0502};
ghost use Rattle.fetch.specs.Fetch.{size_of};
ghost use Rattle.image.specs.Image.{cpu_of, image_size, machine_of};
ghost use Rattle.trace.specs.Trace.{scan_of};
ghost use Rattle.steps.specs.Steps.{steps_over, step_by};
ghost use Rattle.runs.specs.Answer.{due_after};
ghost use Rattle.verdicts.specs.Judged.{number_of, address_of};
ghost use Rattle.calls.specs.Calls.{answered, ran_in, plain_call, table_call, Call};

use chip::DataMemory;
use fetch::Origin;
use image::Image;
use runs::run;
use runs::told::told;
use verdicts::{Refusal, judge_plain, judge_tabled};

// What a run answers: its number, the steps that it made, the address of a refusal or a stop, and the log's end.
#[repr(C)]
#[derive(Clone, Copy)]
pub struct Answer {
    pub number: u32,
    pub steps: u32,
    pub address: u32,
    pub log_end: usize,
}

// An answer with the due time of the record at the cursor, where all steps are made: a caller that goes on from there need not scan the trace again.
#[derive(Clone, Copy)]
pub struct Pause {
    pub answer: Answer,
    pub due: u64,
}

fn refused(refusal: Refusal, start: usize) -> Answer
    ensures { result ≡ answered (number_of refusal) 0 (address_of refusal) start }
{
    Answer {
        number: refusal.number(),
        steps: 0,
        address: refusal.address(),
        log_end: start,
    }
}

// The steps of the budget where what is given is accepted: on the state's nibbles, with the scalars stored behind them. `due` is the due time of the
// record at the cursor.
pub fn ran(
    origin: Origin,
    code: &[u8],
    state: &mut [u8],
    trace: &[u8],
    log: &mut [u8],
    start: usize,
    budget: u32,
    due: u64,
) -> Pause
    requires rom0502_bound { rom0502 ≤ size_of origin (length code.now) }
    requires state_len { length state.old ≡ image_size }
    requires start_in_bounds { start ≤ length log.old }
    requires state_value { scan_of trace.now (cpu_of state.old).cursor ≡ Ok due }
    ensures call { Call (ran_in origin code.now state.old trace.now log.old start budget) result.answer state.new log.new }
    ensures due_after { due_after trace.now (steps_over (step_by origin code.now trace.now) budget (machine_of state.old) log.old start) result.due }
{
    let image: &mut Image = state.as_mut_array().unwrap();
    let c = image::load(image);
    let mem: &mut DataMemory = image.first_chunk_mut().unwrap();
    let r = run(origin, code, trace, mem, c, due, log, start, budget);
    image::store(r.cpu, image);
    let x = told(origin, code, r);
    Pause {
        answer: Answer {
            number: x.number as u32,
            steps: x.steps,
            address: x.address as u32,
            log_end: x.end,
        },
        due: x.due,
    }
}

// The plain run: it reads the ROM, never a table.
pub fn plain_run(
    rom: &[u8],
    state: &mut [u8],
    trace: &[u8],
    log: &mut [u8],
    start: usize,
    budget: u32,
) -> Answer
    ensures { Call (plain_call rom.now state.old trace.now log.old start budget) result state.new log.new }
{
    match judge_plain(rom, state, trace, log, start) {
        Err(refusal) => refused(refusal, start),
        Ok(due) => ran(Origin::Rom, rom, state, trace, log, start, budget, due).answer,
    }
}

// The table-driven run: its steps are handed the table and no ROM.
pub fn table_run(
    rom: &[u8],
    table: &[u8],
    state: &mut [u8],
    trace: &[u8],
    log: &mut [u8],
    start: usize,
    budget: u32,
) -> Answer
    ensures { Call (table_call rom.now table.now state.old trace.now log.old start budget) result state.new log.new }
{
    match judge_tabled(rom, table, state, trace, log, start) {
        Err(refusal) => refused(refusal, start),
        Ok(due) => ran(Origin::Table, table, state, trace, log, start, budget, due).answer,
    }
}
