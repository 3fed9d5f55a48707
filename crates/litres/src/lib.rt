// Litres by farm: what a log says was collected, in a line for each farm. It knows a log's bytes and no machine.
#![tactic(auto)]

ghost use Rattle.std.specs.Prelude.{◌≡◌, true, ◌-◌, ◌≤◌, ◌<◌, length, get_or};
ghost use Rattle.litres.specs.Log.{is_log};
ghost use Rattle.litres.specs.Farms.{are_marks, litres_in};
ghost use Rattle.litres.specs.Lines.{counted_of, no_lines, lines_of};
ghost use Rattle.litres.specs.Tally.{most_counted, added_to};

mod farms; // farms.rt: the marks, the farm of a clock, and what a litre is
mod log; // log.rt: the log's records

use farms::{are_marks, bit_after, is_litre, reached};
use log::{RECORD, change_in, is_log};
use numbers::{DONE, LITRES};

// The most farms that a call counts for.
pub const MOST_FARMS: usize = 64;

// What a call answers: its refusal, or done with the litres of each line. The first farm's line is farm[0]; past the last farm they are 0.
#[repr(C)]
#[derive(Clone, Copy)]
pub struct Lines {
    pub number: u32,
    pub unplaced: u64,
    pub farm: [u64; MOST_FARMS],
}

fn refused(number: u32) -> Lines
    ensures { result ≡ no_lines number }
{
    Lines {
        number,
        unplaced: 0,
        farm: [0u64; MOST_FARMS],
    }
}

// A litre more, if it is one, in its line. The farms' lines count from 1; line 0 is "unplaced", whose litres are answered.
fn add(farm: &mut [u64], unplaced: u64, line: usize, litre: bool) -> u64
    requires { (line ≤ length farm.old) × (unplaced < most_counted) × (get_or farm.old (line - 1) 0 < most_counted) }
    ensures { record { unplaced = result; farm = farm.new } ≡ added_to litre line (record { unplaced = unplaced; farm = farm.old }) }
{
    if !litre {
        return unplaced;
    }
    if line == 0 {
        return unplaced + 1;
    }
    farm[line - 1] += 1;
    unplaced
}

// Counts the litres of a log farm by farm. The clocks don't fall, so the farms are met one after another.
fn counted(log: &[u8], marks: &[u32]) -> Lines
    requires marks_value { are_marks marks.now ≡ true }
    requires log_value { is_log log.now ≡ true }
    ensures { result ≡ counted_of marks.now (litres_in log.now) }
{
    let mut unplaced = 0;
    let mut farm = [0u64; MOST_FARMS];
    let mut was = 0;
    let mut line = 0;
    for record in log.chunks_exact(RECORD) {
        let c = change_in(record);
        line = reached(marks, line, c.clock);
        unplaced = add(&mut farm, unplaced, line, is_litre(was, c));
        was = bit_after(was, c);
    }
    Lines {
        number: DONE,
        unplaced,
        farm,
    }
}

// Counts the rising changes of P4 bit 0 in the log, one litre each, by the farms that begin at the marks; refuses with 16.
pub fn litres(log: &[u8], marks: &[u32]) -> Lines
    ensures { result ≡ lines_of log.now marks.now }
{
    if are_marks(marks) && is_log(log) {
        counted(log, marks)
    } else {
        refused(LITRES)
    }
}
