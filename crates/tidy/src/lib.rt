// The tidy form of a trace: one trace for one meaning, whatever waits its writer used. One pass over the records finds the form's length, a second writes it.
#![tactic(auto)]

ghost use Rattle.std.specs.Prelude.{◌≡◌};
ghost use Rattle.tidy.specs.Tidy.{tidy_answer, tidy_buffer};

mod passage; // passage.rt: how far a pass has come
mod writer; // writer.rt: the tidy bytes

use numbers::{SHORT, TRACE};
use passage::measured;
use trace::LONGEST;
use writer::write;
use written::{Written, accepted, refused};

// Refuses with 6 or 13, or writes the tidy form to the start of `out` and answers its length.
pub fn tidy(trace: &[u8], out: &mut [u8]) -> Written
    ensures { (result ≡ tidy_answer trace.now out.old) × (out.new ≡ tidy_buffer trace.now out.old) }
{
    if trace.len() > LONGEST {
        return refused(TRACE, LONGEST as u32);
    }
    let all = measured(trace);
    if all.at != trace.len() {
        return refused(TRACE, all.at as u32);
    }
    if out.len() < all.put {
        return refused(SHORT, 0);
    }
    write(trace, out);
    accepted(all.put)
}
