// Numbers 1 to 8 of document 01, tested in their order before any step: what a run is given is accepted, or refused with a number at an address.
#![tactic(auto)]

ghost use Rattle.std.specs.Prelude.{◌≡◌, ◌*◌, ◌≤◌, ℕ, cond, length, IfOk};
ghost use Rattle.numbers.specs.Numbers.{rom_refusal, table_refusal};
ghost use Rattle.chip.specs.State.{rom0502, rom0504};
ghost use Rattle.table.specs.Table.{stale_of};
ghost use Rattle.verdicts.specs.Verdicts.{refused_as, rom_fits, table_fits, start_verdict, state_verdict, table_verdict, plain_verdict, run_verdict};
ghost use Rattle.verdicts.specs.Judged.{number_of, address_of, refusal_of, Says, Judged};

use chip::Machine;
use image::Image;
use numbers::{CURSOR, FIELD, IMAGE, LOG, ROM, STALE, TABLE, TRACE};
use trace::Fault;

// Why a run is refused. A field, a stale byte and a malformed record are told by the offset at which they start.
#[derive(Clone, Copy, PartialEq, Eq, Debug)]
pub enum Refusal {
    Rom,
    Table,
    Image,
    Field(u32),
    Stale(u32),
    Trace(u32),
    Cursor,
    Log,
}

impl Refusal {
    pub fn number(self) -> u32
        ensures { result ≡ number_of self }
    {
        match self {
            Refusal::Rom => ROM,
            Refusal::Table => TABLE,
            Refusal::Image => IMAGE,
            Refusal::Field(_) => FIELD,
            Refusal::Stale(_) => STALE,
            Refusal::Trace(_) => TRACE,
            Refusal::Cursor => CURSOR,
            Refusal::Log => LOG,
        }
    }

    // 0 where nothing is told by an offset.
    pub fn address(self) -> u32
        ensures { result ≡ address_of self }
    {
        match self {
            Refusal::Field(at) | Refusal::Stale(at) | Refusal::Trace(at) => at,
            Refusal::Rom | Refusal::Table | Refusal::Image | Refusal::Cursor | Refusal::Log => 0,
        }
    }
}

// What a scan of the trace finds wrong.
impl From<Fault> for Refusal {
    ghost from_gives = { λ f r. r ≡ refusal_of f };

    fn from(fault: Fault) -> Refusal {
        match fault {
            Fault::Malformed(at) => Refusal::Trace(at),
            Fault::Astray => Refusal::Cursor,
        }
    }
}

// Test 1: a ROM has the length of either chip's.
pub fn rom_fits(n: usize) -> bool
    ensures { result ≡ rom_fits n }
{
    n == Machine::ROM_0502 || n == Machine::ROM_0504
}

pub fn judge_rom(rom: &[u8]) -> Result<(), Refusal>
    ensures { Says result (λ later. cond (rom_fits (length rom.now)) later (refused_as rom_refusal 0)) }
{
    if rom_fits(rom.len()) {
        Ok(())
    } else {
        Err(Refusal::Rom)
    }
}

// Test 2: a table has an entry for each byte of the ROM.
pub fn judge_size(rom: &[u8], table: &[u8]) -> Result<(), Refusal>
    requires { length rom.now ≤ rom0504 }
    ensures { Says result (λ later. cond (table_fits (length rom.now) (length table.now)) later (refused_as table_refusal 0)) }
{
    if table.len() == Machine::ENTRY * rom.len() {
        Ok(())
    } else {
        Err(Refusal::Table)
    }
}

// Tests 3 and 4, for a ROM of n bytes.
#[tactic(auto, unfolding(crate::specs::Verdicts::state_verdict))]
fn judge_state(state: &[u8], n: usize) -> Result<&Image, Refusal>
    ensures says { Says result (λ later. state_verdict n state.now later) }
    ensures same { IfOk result (λ image. image.now ≡ state.now) }
{
    let Ok(image) = <&Image>::try_from(state) else {
        return Err(Refusal::Image);
    };
    match image::fault(image, n) {
        Some(at) => Err(Refusal::Field(at as u32)),
        None => Ok(image),
    }
}

// Test 5.
#[tactic(auto, unfolding(crate::specs::Verdicts::table_verdict))]
fn judge_table(rom: &[u8], table: &[u8]) -> Result<(), Refusal>
    requires { (rom0502 ≤ length rom.now) × (length rom.now ≤ rom0504) × (length table.now ≡ 4 * length rom.now) }
    ensures { Says result (λ later. table_verdict (stale_of rom.now table.now) later) }
{
    match table::stale(rom, table) {
        Some(at) => Err(Refusal::Stale(at as u32)),
        None => Ok(()),
    }
}

// Tests 6, 7 and 8: the due time of the record at the cursor.
pub fn judge_start(state: &Image, trace: &[u8], log: &[u8], start: usize) -> Result<u64, Refusal>
    ensures { Judged (start_verdict state.now trace.now log.now start) state.now trace.now result }
{
    let due = trace::scan(trace, image::load(state).cursor)?;
    if log.len() < start {
        return Err(Refusal::Log);
    }
    Ok(due)
}

// The tests of the plain run: all but 2 and 5.
pub fn judge_plain(
    rom: &[u8],
    state: &[u8],
    trace: &[u8],
    log: &[u8],
    start: usize,
) -> Result<u64, Refusal>
    ensures { Judged (plain_verdict rom.now state.now trace.now log.now start) state.now trace.now result }
{
    judge_rom(rom)?;
    let state = judge_state(state, rom.len())?;
    judge_start(state, trace, log, start)
}

// The tests of the table-driven run.
pub fn judge_tabled(
    rom: &[u8],
    table: &[u8],
    state: &[u8],
    trace: &[u8],
    log: &[u8],
    start: usize,
) -> Result<u64, Refusal>
    ensures { Judged (run_verdict rom.now table.now state.now trace.now log.now start) state.now trace.now result }
{
    judge_rom(rom)?;
    judge_size(rom, table)?;
    let state = judge_state(state, rom.len())?;
    judge_table(rom, table)?;
    judge_start(state, trace, log, start)
}
