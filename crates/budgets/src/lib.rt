// The table-driven run, called once for each budget of a list (demand 3 of the order).
#![tactic(auto)]

ghost use Rattle.std.specs.Prelude.{◌≡◌, ◌≤◌, length};
ghost use Rattle.portlog.specs.Log.{written};
ghost use Rattle.budgets.specs.Claim.{ListMade, words_of};

use calls::{Answer, table_run};

// The refusal of a list of calls: the buffer has no room for four words a call.
#[derive(Clone, Copy, PartialEq, Eq, Debug)]
pub struct Short;

// Writes the four words of an answer at the start of the buffer that it is lent.
fn put_answer(words: &mut [u64], r: Answer)
    requires { 4 ≤ length words.old }
    ensures { words.new ≡ written words.old 0 (words_of r) }
{
    words[0] = r.number as u64;
    words[1] = r.steps as u64;
    words[2] = r.address as u64;
    words[3] = r.log_end as u64;
}

// A call for each budget, each from what the call before it left. The answers go to the buffer, four words each: number, steps, address and
// log end. Answers the log's end.
pub fn table_runs(
    rom: &[u8],
    table: &[u8],
    state: &mut [u8],
    trace: &[u8],
    log: &mut [u8],
    start: usize,
    budgets: &[u32],
    answers: &mut [u64],
) -> Result<usize, Short>
    ensures { ListMade rom.now table.now trace.now state.old log.old start budgets.now answers.old result state.new log.new answers.new }
{
    if answers.len() / 4 < budgets.len() {
        return Err(Short);
    }
    let mut end = start;
    for (i, &budget) in budgets.iter().enumerate() {
        let r = table_run(rom, table, state, trace, log, end, budget);
        put_answer(&mut answers[4 * i..], r);
        end = r.log_end;
    }
    Ok(end)
}
