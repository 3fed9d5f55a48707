// One session of the program: a ROM is run from fresh, and what it logged and how it ended are made a text, which is what the program prints.
#![tactic(auto)]

ghost use Rattle.std.specs.Prelude.{◌≡◌, true, ◌*◌, length, take};
ghost use Rattle.calls.specs.Calls.{plain_call, Call};
ghost use Rattle.verdicts.specs.Verdicts.{rom_fits};
ghost use Rattle.io.specs.Counts.{IsPrefixLen};
ghost use Rattle.playback.specs.Session.{unstarted, empty_log, session_of, log_of, session_text};

use calls::{Answer, plain_run, table_run};
use chip::Machine;
use printing::{RECORD, put_lines};
use startup::fresh_state;
use table::fill;
use verdicts::rom_fits;

// The bytes of a session's log.
pub const LOG: usize = 60000;

// The longest text of a session: a line of three numbers for each record that the log has room for, and one of five.
pub const LONGEST_TEXT: usize = LOG / RECORD * 3 * decimals::NUMBER + 5 * decimals::NUMBER;

// How a session ended, and the clock and the PC that it left.
#[derive(Clone, Copy)]
pub struct Ending {
    pub answer: Answer,
    pub clock: u32,
    pub pc: u16,
}

// How a session ended, and how many bytes its text has.
#[derive(Clone, Copy)]
pub struct Printed {
    pub ending: Ending,
    pub length: usize,
}

pub fn refused(number: u32) -> Ending
    ensures { result ≡ unstarted number }
{
    let answer = Answer {
        number,
        steps: 0,
        address: 0,
        log_end: 0,
    };
    Ending {
        answer,
        clock: 0,
        pc: 0,
    }
}

// The table-driven run over the ROM's own table, which is written first: it answers and leaves what the plain run does, and passes idle
// and held stretches in one go.
fn tabled(
    rom: &[u8],
    table: &mut [u8],
    state: &mut [u8],
    trace: &[u8],
    log: &mut [u8],
    budget: u32,
) -> Answer
    requires rom_value { rom_fits (length rom.now) ≡ true }
    requires table_len { length table.old ≡ 4 * length rom.now }
    ensures { Call (plain_call rom.now state.old trace.now log.old 0 budget) result state.new log.new }
{
    fill(rom, table);
    table_run(rom, table, state, trace, log, 0, budget)
}

// The run of a session. A ROM that does not fit is the plain run's to refuse.
fn played(rom: &[u8], state: &mut [u8], trace: &[u8], log: &mut [u8], budget: u32) -> Answer
    ensures { Call (plain_call rom.now state.old trace.now log.old 0 budget) result state.new log.new }
{
    let n = rom.len();
    if !rom_fits(n) {
        return plain_run(rom, state, trace, log, 0, budget);
    }
    let mut table = [0u8; Machine::ENTRY * Machine::ROM_0504];
    let entries = 4 * n;
    tabled(rom, &mut table[..entries], state, trace, log, budget)
}

// Runs the ROM from fresh on the trace, and writes the log from its start on.
pub fn run(rom: &[u8], trace: &[u8], budget: u32, log: &mut [u8]) -> Ending
    ensures { (result ≡ session_of rom.now trace.now budget log.old) × (log.new ≡ log_of rom.now trace.now budget log.old) }
{
    let mut state = [0u8; Machine::IMAGE];
    if let Err(refusal) = fresh_state(rom, &mut state) {
        return refused(refusal.number());
    }
    let answer = played(rom, &mut state, trace, log, budget);
    let cpu = image::load(&state);
    Ending {
        answer,
        clock: cpu.clock,
        pc: cpu.pc,
    }
}

// Plays a session, and writes its text to the start of `out`.
pub fn session(rom: &[u8], trace: &[u8], budget: u32, out: &mut [u8; LONGEST_TEXT]) -> Printed
    ensures ending_value { result.ending ≡ session_of rom.now trace.now budget empty_log }
    ensures out_after { take result.length out.new ≡ session_text rom.now trace.now budget }
    ensures prefix_len { IsPrefixLen result.length out.new }
{
    let mut log = [0u8; LOG];
    let ending = run(rom, trace, budget, &mut log);
    let a = ending.answer;
    let length = put_lines(
        &log,
        a.log_end,
        a.number,
        a.steps,
        a.address,
        ending.clock,
        ending.pc,
        out,
    );
    Printed { ending, length }
}
