// One turn, and whose comes next.
ghost use Rattle.std.specs.Prelude.{◌≡◌, cond, ◌+◌, ◌≤◌, ◌<◌, eqb};
ghost use Rattle.heads.specs.Heads.{after, over_both};
ghost use Rattle.heads.specs.Turning.{Fitting, TurnMade};

use calls::{Answer, Pause, ran};
use chip::Machine;
use fetch::Origin;
use parts::trace_start;

// How many heads are looked at for the one whose turn it is: none where no turn is left.
pub fn looks(left: u32, heads: usize) -> usize
    ensures { result ≡ cond (eqb left 0) 0 heads }
{
    if left == 0 { 0 } else { heads }
}

// The head after head i, the lowest after the last.
pub fn following(i: usize, heads: usize) -> usize
    requires { i < heads }
    ensures { result ≡ after heads i }
{
    if i + 1 < heads { i + 1 } else { 0 }
}

// An answer over the turns before and this one.
fn over_both(before: Answer, turn: Answer) -> Answer
    requires { before.steps + turn.steps ≤ 4294967295 }
    ensures { result ≡ over_both before turn }
{
    Answer {
        number: turn.number,
        steps: before.steps + turn.steps,
        address: turn.address,
        log_end: turn.log_end,
    }
}

// A turn of head i, on its own bytes of what is lent. No turn tests again, or scans a trace: an accepted state stays accepted, and the due time of the record
// at the head's cursor is carried from turn to turn.
pub fn turn(
    i: usize,
    table: &[u8],
    states: &mut [u8],
    traces: &[u8],
    lengths: &[u64],
    log: &mut [u8],
    part: usize,
    before: Answer,
    due: u64,
    q: u32,
) -> Pause
    requires { Fitting i table.now states.old traces.now lengths.now log.old part q before due }
    ensures { TurnMade i table.now states.old traces.now lengths.now log.old part q before result states.new log.new }
{
    let state = Machine::IMAGE * i;
    let trace = trace_start(lengths, i);
    let length = lengths[i] as usize;
    let start = part * i;
    let end = before.log_end;
    let r = ran(
        Origin::Table,
        table,
        &mut states[state..state + Machine::IMAGE],
        &traces[trace..trace + length],
        &mut log[start..start + part],
        end,
        q,
        due,
    );
    let own = r.answer;
    Pause {
        answer: over_both(before, own),
        due: r.due,
    }
}
