// The bill of a round: what the program `slip` prints for a ROM, a trace, and an order that says the budget and the farms' marks.
#![tactic(auto)]

ghost use Rattle.std.specs.Prelude.{◌≡◌, ◌≤◌, length, take};
ghost use Rattle.io.specs.Counts.{IsPrefixLen};
ghost use Rattle.billing.specs.Bill.{unread_text, bill_of};

use decimals::line;
use marks::{Order, ROOM, read};
use numbers::LITRES;
use playback::refused;
use slips::{LONGEST_TEXT, Printed, slip};
use text::budget::steps;

// What the order says, and what is printed.
#[derive(Clone, Copy)]
pub struct Billed {
    pub order: Order,
    pub printed: Printed,
}

// Writes the text of marks that can't be read to the start of `out`: no round is played.
fn unread(out: &mut [u8; LONGEST_TEXT]) -> Printed
    ensures { (take result.length out.new ≡ unread_text) × IsPrefixLen result.length out.new }
{
    let length = line(out, 0, &[LITRES]);
    let ending = refused(LITRES);
    Printed {
        ending,
        number: LITRES,
        length,
    }
}

// Reads the order, plays the round and writes its bill to the start of `out`.
pub fn bill(rom: &[u8], trace: &[u8], order: &[u8], out: &mut [u8; LONGEST_TEXT]) -> Billed
    ensures out_after { take result.printed.length out.new ≡ bill_of rom.now trace.now order.now }
    ensures prefix_len { IsPrefixLen result.printed.length out.new }
{
    let mut marks = [0u32; ROOM];
    let order = read(order, &mut marks);
    let readable = order.readable;
    if !readable {
        let printed = unread(out);
        return Billed { order, printed };
    }
    let budget = order.budget;
    let n = order.count;
    let printed = slip(rom, trace, steps(budget), &marks[..n], out);
    Billed { order, printed }
}
