// The trace: the record at the cursor, the scan of a whole trace, and the due time of the next record.
#![tactic(auto)]

ghost use Rattle.std.specs.Prelude.{◌≡◌, ◌≤◌, drop};
ghost use Rattle.record.specs.Record.{reading_of};
ghost use Rattle.trace.specs.Trace.{never, scan_of, due_next};

mod pass; // pass.rt: how far a scan has come

use pass::{Pass, concluded, past};
use record::{Record, read};

// The most bytes that a trace may have.
pub const LONGEST: usize = 65536;

// A due time larger than any clock.
pub const NEVER: u64 = 4294967296;

// What a scan refuses: a trace with a malformed record, the first of them starting there; or a cursor that is neither a record's start nor the end.
#[derive(Clone, Copy, PartialEq, Eq, Debug)]
pub enum Fault {
    Malformed(u32),
    Astray,
}

// The record at the cursor: the reader is handed the trace from there on. There is none past the trace's end.
pub fn next_record(trace: &[u8], cursor: u32) -> Option<(Record, usize)>
    ensures { result ≡ reading_of (drop cursor trace.now) }
{
    read(trace.get(cursor as usize..)?)
}

// The due time of the record at the cursor, NEVER at the end, from one pass over the records of the whole trace.
pub fn scan(trace: &[u8], cursor: u32) -> Result<u64, Fault>
    ensures { result ≡ scan_of trace.now cursor }
{
    if trace.len() > LONGEST {
        return Err(Fault::Malformed(LONGEST as u32));
    }
    let c = cursor as usize;
    let mut p = Pass {
        at: 0,
        passed: 0,
        met: None,
    };
    while let Some((r, n)) = read(&trace[p.at..]) {
        p = past(p, c, r, n);
    }
    concluded(trace.len(), c, p)
}

// The due time of the record at the cursor, where the record before it was due at `passed`, a time that a clock has reached. NEVER where there is no record.
pub fn due_next(trace: &[u8], cursor: u32, passed: u64) -> u64
    requires { passed ≤ never }
    ensures { result ≡ due_next trace.now cursor passed }
{
    let Some((r, _)) = next_record(trace, cursor) else {
        return NEVER;
    };
    passed + u64::from(r.wait)
}
