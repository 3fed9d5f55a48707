// How far a scan of the trace has come: past one record more, and what the scan says once no record is left to read.
ghost use Rattle.std.specs.Prelude.{◌≡◌, ◌+◌, ◌≤◌};
ghost use Rattle.trace.specs.Trace.{never, longest};
ghost use Rattle.trace.specs.Pass.{past_of, concluded_of};

use super::{Fault, NEVER};
use record::Record;

// How far a scan has come.
#[derive(Clone, Copy)]
pub(crate) struct Pass {
    pub(crate) at: usize, // where the next record starts
    pub(crate) passed: u64, // the due time of the record before it
    pub(crate) met: Option<u64>, // the due time of the record passed that starts at the cursor, where there is one
}

// Past the record r of n bytes, the next one.
pub(crate) fn past(p: Pass, cursor: usize, r: Record, n: usize) -> Pass
    requires { (p.at + n ≤ longest) × (p.passed ≤ never) }
    ensures { result ≡ past_of cursor p r n }
{
    let due = p.passed + u64::from(r.wait);
    Pass {
        at: p.at + n,
        passed: due,
        met: if p.at == cursor { Some(due) } else { p.met },
    }
}

// What the scan says of a trace of `end` bytes, once no record is left to read.
#[tactic(auto, unfolding(crate::specs::Pass::concluded_of))]
pub(crate) fn concluded(end: usize, cursor: usize, p: Pass) -> Result<u64, Fault>
    requires { p.at ≤ longest }
    ensures { result ≡ concluded_of end cursor p }
{
    if p.at != end {
        return Err(Fault::Malformed(p.at as u32));
    }
    match p.met {
        Some(due) => Ok(due),
        None if cursor == end => Ok(NEVER),
        None => Err(Fault::Astray),
    }
}
