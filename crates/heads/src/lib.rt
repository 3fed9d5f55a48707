// The dispatcher: several heads on one recorder. What is lent is tested once a call; then the heads have their turns, each a table-driven run that goes on
// from where the head's last turn left it.
#![tactic(auto)]

ghost use Rattle.std.specs.Prelude.{◌≡◌};
ghost use Rattle.heads.specs.Call.{refusing, dispatch_of, Call};

mod tests; // tests.rt: the tests of a call
mod turns; // turns.rt: one turn, and whose comes next

use calls::Answer;
use numbers::DONE;
use parts::{MOST, share};
use tests::{Refused, tested, unturned};
use turns::{following, looks, turn};

// What a call answers: its refusal, or done with each head's answer over its turns. How many turns were given is not told yet.
#[repr(C)]
#[derive(Clone, Copy)]
pub struct HeadsAnswer {
    pub number: u32,
    pub address: u32,
    pub turns: u32,
    pub head: [Answer; MOST],
}

fn refused(refusal: Refused) -> HeadsAnswer
    ensures { result ≡ refusing refusal.number refusal.address }
{
    HeadsAnswer {
        number: refusal.number,
        address: refusal.address,
        turns: 0,
        head: [unturned(0); MOST],
    }
}

// Gives the heads `turns` turns of q steps, fewer only once every head has stopped: it looks at one head after another for the next that hasn't, and ends
// where it has looked at all since the last turn. Refuses with 14, 15, or 1 to 8.
pub fn dispatch(
    heads: u32,
    rom: &[u8],
    table: &[u8],
    states: &mut [u8],
    traces: &[u8],
    lengths: &[u64],
    log: &mut [u8],
    starts: &[u64],
    q: u32,
    turns: u32,
) -> HeadsAnswer
    ensures { Call (dispatch_of (record { count = heads; rom = rom.now; table = table.now; states = states.old; traces = traces.now; lengths = lengths.now; log = log.old; starts = starts.now }) q turns) result states.new log.new }
{
    let from = match tested(heads, rom, table, states, traces, lengths, log, starts, q) {
        Ok(from) => from,
        Err(refusal) => return refused(refusal),
    };
    let count = heads as usize;
    let part = share(log.len(), count);
    let mut answer = from.answer;
    let mut due = from.due;
    let mut left = turns;
    let mut look = looks(turns, count);
    let mut i = 0;
    while 0 < look {
        let before = answer[i];
        let next = following(i, count);
        if before.number == DONE {
            let r = turn(
                i, table, states, traces, lengths, log, part, before, due[i], q,
            );
            let so_far = r.answer;
            answer[i] = so_far;
            due[i] = r.due;
            left -= 1;
            look = looks(left, count);
            i = next;
        } else {
            look -= 1;
            i = next;
        }
    }
    HeadsAnswer {
        number: DONE,
        address: 0,
        turns: 0,
        head: answer,
    }
}
