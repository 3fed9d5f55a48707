// The marks at which farms begin, the farm of a clock, and which changes are litres.
ghost use Rattle.std.specs.Prelude.{◌≡◌, ◌+◌, ◌≤◌, length, drop};
ghost use Rattle.litres.specs.Farms.{are_marks, bit_after, is_litre, farm_of};

use super::MOST_FARMS;
use super::log::Change;

// The port whose bit 0 is counted.
const METER_PORT: u8 = 4;

// At most 64 marks, each behind the one before it.
#[tactic(auto, unfolding(crate::specs::Farms::are_marks))]
pub(crate) fn are_marks(marks: &[u32]) -> bool
    ensures { result ≡ are_marks marks.now }
{
    marks.len() <= MOST_FARMS && marks.is_sorted_by(|mark, next| *mark < *next)
}

// The meter's bit after a change, where it was `was`.
pub(crate) fn bit_after(was: u8, c: Change) -> u8
    ensures { result ≡ bit_after was c }
{
    if c.port == METER_PORT {
        c.nibble % 2
    } else {
        was
    }
}

// A litre is a change of that bit from 0 to 1.
pub(crate) fn is_litre(was: u8, c: Change) -> bool
    ensures { result ≡ is_litre was c }
{
    was == 0 && bit_after(was, c) == 1
}

// How many marks the clock has reached, of which `before` are known.
pub(crate) fn reached(marks: &[u32], before: usize, clock: u32) -> usize
    requires { before ≤ length marks.now }
    ensures { result ≡ before + farm_of (drop before marks.now) clock }
{
    before
        + marks[before..]
            .iter()
            .take_while(|mark| **mark <= clock)
            .count()
}
