// The slip of a round: a ROM is run from fresh, and its log's litres by farm and how it ended are made a text, which is what the office prints.
#![tactic(auto)]

ghost use Rattle.std.specs.Prelude.{◌≡◌, [], ◌∷◌, ◌++◌, ◌+◌, ◌-◌, ◌≤◌, length, get_or, take};
ghost use Rattle.io.specs.Counts.{IsPrefixLen};
ghost use Rattle.litres.specs.Farms.{most_farms};
ghost use Rattle.decimals.specs.Lines.{line_of};
ghost use Rattle.playback.specs.Session.{empty_log, session_of};
ghost use Rattle.slips.specs.Fit.{Short, AllShort, Fit};
ghost use Rattle.slips.specs.Slip.{unplaced_word, farm_lines, slip_of, collected_of, slip_text};

use decimals::line;
use litres::{Lines, MOST_FARMS, litres};
use numbers::DONE;
use playback::{Ending, LOG, run};
use printing::written;

// The bytes of "unplaced" and a space.
const WORD: usize = 9;

// The longest text of a slip: the word and a number, a line of three numbers for each farm, and one of five.
pub const LONGEST_TEXT: usize = WORD
    + decimals::NUMBER
    + MOST_FARMS * 3 * decimals::NUMBER
    + 5 * decimals::NUMBER;

// How a round ended, what litres answers of it, and how many bytes its slip has.
#[derive(Clone, Copy)]
pub struct Printed {
    pub ending: Ending,
    pub number: u32,
    pub length: usize,
}

// Writes the first line to the start of the text, and answers where it ends.
fn put_unplaced(out: &mut [u8], litres: u64) -> usize
    requires in_bounds { 20 ≤ length out.old }
    requires short { Short litres }
    ensures { (take result out.new ≡ unplaced_word ++ line_of (litres ∷ [])) × (result ≤ 20) }
{
    out[..WORD].copy_from_slice(b"unplaced ");
    line(out, WORD, &[litres as u32])
}

// Writes the farms' lines to the text from `to` on, and answers where they end. Farms count from 1.
fn put_farms(marks: &[u32], farm: &[u64; MOST_FARMS], out: &mut [u8], to: usize) -> usize
    requires marks_len_bound { length marks.now ≤ most_farms }
    requires all_short { AllShort farm.now }
    requires to_in_bounds { to + 2112 ≤ length out.old }
    ensures { (take result out.new ≡ take to out.old ++ farm_lines 1 marks.now farm.now) × (result ≤ to + 2112) }
{
    let mut end = to;
    for (i, &mark) in marks.iter().enumerate() {
        end = line(out, end, &[i as u32 + 1, mark, farm[i] as u32]);
    }
    end
}

// Writes a slip's text to the start of `out`, and answers where it ends.
fn put_slip(lines: Lines, marks: &[u32], ending: Ending, out: &mut [u8; LONGEST_TEXT]) -> usize
    requires { Fit lines marks.now }
    ensures { (take result out.new ≡ slip_of lines marks.now ending) × IsPrefixLen result out.new }
{
    let a = ending.answer;
    let refusal = lines.number;
    if refusal != DONE {
        return line(out, 0, &[refusal]);
    }
    let at = put_unplaced(out, lines.unplaced);
    let to = put_farms(marks, &lines.farm, out, at);
    line(
        out,
        to,
        &[a.number, a.steps, a.address, ending.clock, ending.pc as u32],
    )
}

// Plays a round, and writes its slip to the start of `out`: the litres of the farms that begin at the marks. More than 64 marks, and marks that don't rise, are
// refused by litres.
pub fn slip(
    rom: &[u8],
    trace: &[u8],
    budget: u32,
    marks: &[u32],
    out: &mut [u8; LONGEST_TEXT],
) -> Printed
    ensures ending_value { result.ending ≡ session_of rom.now trace.now budget empty_log }
    ensures number_value { result.number ≡ (collected_of rom.now trace.now budget marks.now).number }
    ensures out_after { take result.length out.new ≡ slip_text rom.now trace.now budget marks.now }
    ensures prefix_len { IsPrefixLen result.length out.new }
{
    let mut log = [0u8; LOG];
    let ending = run(rom, trace, budget, &mut log);
    let a = ending.answer;
    let n = written(a.log_end, &log);
    let lines = litres(&log[..n], marks);
    let number = lines.number;
    let length = put_slip(lines, marks, ending, out);
    Printed {
        ending,
        number,
        length,
    }
}
