// Runs rom.bin from fresh on trace.bin, with the budget that standard input says, and prints what was logged and how it ended. What is wrong with
// the files or the budget, and why a run stopped, is told in words on standard error.
#![tactic(auto)]

use chip::Machine;
use folder::{read_file, told};
use playback::LONGEST_TEXT;
use std::io::{Print, Read};
use text::budget;
use text::budget::Seen;
use text::input::read_full;
use trace::LONGEST;

// How many bytes of standard input are read at a time.
const PIECE: usize = 4096;

// Reads the input to its end, which a piece that is not full shows. A proved loop has to end, and nothing says that the input does. So the
// pieces are counted, up to a number that no input reaches.
fn read_budget<R: Read>(input: &mut R) -> Seen {
    let mut piece = [0u8; PIECE];
    let mut seen = budget::start();
    for _ in 0..=u64::MAX {
        let n = read_full(input, &mut piece);
        seen = budget::absorb(seen, &piece[..n]);
        if n < PIECE {
            break;
        }
    }
    seen
}

// The steps of the budget; that there is none is told.
fn steps(err: &impl Print, said: Option<u32>) -> u32 {
    told::budget(err, b"replay", said);
    budget::steps(said)
}

// Each buffer has a byte more than the longest that is taken, so that what is longer is refused and not cut short.
fn main(rt: HostRuntime) {
    let err = rt.stderr();
    let mut rom = [0u8; Machine::ROM_0504 + 1];
    let mut trace = [0u8; LONGEST + 1];
    let mut text = [0u8; LONGEST_TEXT];
    let r = read_file(&rt, &err, b"rom.bin", &mut rom);
    let t = read_file(&rt, &err, b"trace.bin", &mut trace);
    let budget = steps(&err, budget::said(read_budget(&mut rt.reader())));
    let printed = playback::session(&rom[..r], &trace[..t], budget, &mut text);
    let n = printed.length;
    if rt.write_all(&text[..n]).is_err() {
        told::unwritten(&err, b"replay");
    }
    told::ending(&err, b"replay", printed.ending);
}
