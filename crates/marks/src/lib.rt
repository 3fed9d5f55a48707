// What a text says to the program `slip`: the budget on its first line, and a mark on each further line.
#![tactic(auto)]

ghost use Rattle.std.specs.Prelude.{◌≡◌, [], ◌∷◌, ◌++◌, ◌≤◌, length, take};
ghost use Rattle.io.specs.Counts.{IsPrefixLen};
ghost use Rattle.text.specs.Budget.{budget_in};
ghost use Rattle.marks.specs.Order.{trimmed};
ghost use Rattle.marks.specs.Lines.{room, Says};

use text::budget;
use text::budget::is_white;

const LINE_END: u8 = 10;

// The longest text that is read.
pub const LONGEST: usize = 65536;

// How many marks are kept: one more than there may be farms, so that too many stay too many.
pub const ROOM: usize = 65;

// The budget, how many marks are kept, and whether each further line says one in a text that is not too long.
#[derive(Clone, Copy)]
pub struct Order {
    pub budget: Option<u32>,
    pub count: usize,
    pub readable: bool,
}

// How many bytes there are up to the white space at the end.
fn trimmed_length(text: &[u8]) -> usize
    ensures { (take result text.now ≡ trimmed text.now) × IsPrefixLen result text.now }
{
    match text.iter().rposition(|&b| !is_white(b)) {
        Some(last) => last + 1,
        None => 0,
    }
}

fn said_by(line: &[u8]) -> Option<u32>
    ensures { result ≡ budget_in line.now }
{
    budget::said(budget::absorb(budget::start(), line))
}

// Puts a mark behind those that are kept, and answers how many there are then.
fn keep(marks: &mut [u32; ROOM], count: usize, mark: u32) -> usize
    requires { count ≤ room }
    ensures { (result ≤ room) × (take result marks.new ≡ take room (take count marks.old ++ (mark ∷ []))) }
{
    if count == ROOM {
        return count;
    }
    marks[count] = mark;
    count + 1
}

// Reads an order.
pub fn read(order: &[u8], marks: &mut [u32; ROOM]) -> Order
    ensures { Says order.now result marks.new }
{
    let mut lines = order[..trimmed_length(order)].split(|b| *b == LINE_END);
    let budget = said_by(lines.next().unwrap_or(&[]));
    let mut count = 0;
    let mut readable = order.len() <= LONGEST;
    for line in lines {
        let mark = said_by(line);
        count = keep(marks, count, budget::steps(mark));
        readable &= mark.is_some();
    }
    Order {
        budget,
        count,
        readable,
    }
}
