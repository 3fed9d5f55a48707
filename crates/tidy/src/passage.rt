// How far a pass over the records has come on the way to their tidy form, and one record further.
ghost use Rattle.std.specs.Prelude.{◌≡◌, ◌+◌, ◌≤◌, length};
ghost use Rattle.trace.specs.Trace.{never, longest, end_of};
ghost use Rattle.tidy.specs.Meaning.{only_waits};
ghost use Rattle.tidy.specs.Tidy.{full_waits, own_wait, tidy_of};
ghost use Rattle.tidy.specs.Passage.{Underway, Readable, head_size, past_of, further_of, first_passage};

use record::{Record, read, shape_of};

// The longest wait that a record can have.
pub(crate) const LONGEST_WAIT: u64 = 65535;

// The bytes of a map, and of a map with a wait, which are all of a record that only waits.
pub(crate) const MAP: usize = 2;

pub(crate) const MAP_AND_WAIT: usize = 4;

// The map's low byte of a record that only waits.
pub(crate) const NO_FIELD_NO_RESET: u8 = 0;

#[derive(Clone, Copy)]
pub(crate) struct Passage {
    pub(crate) at: usize, // where the next record starts
    pub(crate) passed: u64, // the due time of the record before it
    pub(crate) last: u64, // the due time of the last event
    pub(crate) put: usize, // how many tidy bytes the records so far make
}

// A record without fields and reset only adds time.
fn only_waits(r: Record) -> bool
    ensures { result ≡ only_waits r }
{
    r.ports == 0 && !r.reset
}

// How many wait-only records of the longest wait a gap needs.
pub(crate) fn full_waits(gap: u64) -> usize
    requires { gap ≤ never }
    ensures { result ≡ full_waits gap }
{
    if gap <= LONGEST_WAIT {
        return 0;
    }
    ((gap - 1) / LONGEST_WAIT) as usize
}

// The wait that the event's own record keeps of a gap.
pub(crate) fn own_wait(gap: u64) -> u16
    requires { gap ≤ never }
    ensures { result ≡ own_wait gap }
{
    (gap - LONGEST_WAIT * (full_waits(gap) as u64)) as u16
}

// How many bytes stand before a record's fields.
fn head_size(wait: u16) -> usize
    ensures { result ≡ head_size wait }
{
    if wait == 0 { MAP } else { MAP_AND_WAIT }
}

// Past a record of n bytes. An event has other wait-only records before it in the tidy form, and another wait; its map's low byte and its fields stay.
fn past(p: Passage, n: usize, wait: u16, event: bool) -> Passage
    requires { (p.at + n ≤ longest) × (p.put ≤ longest) × (p.passed + wait ≤ never) × (p.last ≤ p.passed) × (head_size wait ≤ n) }
    ensures { result ≡ past_of p n wait event }
{
    let due = p.passed + u64::from(wait);
    if event {
        let gap = due - p.last;
        let fields = n - head_size(wait);
        let added = MAP_AND_WAIT * full_waits(gap) + head_size(own_wait(gap)) + fields;
        return Passage {
            at: p.at + n,
            passed: due,
            last: due,
            put: p.put + added,
        };
    }
    Passage {
        at: p.at + n,
        passed: due,
        ..p
    }
}

// One record further where the reader found one before: a second pass goes by the map alone.
pub(crate) fn further_again(trace: &[u8], p: Passage) -> Passage
    requires { Underway trace.now p × Readable trace.now p.at }
    ensures { result ≡ further_of trace.now p }
{
    let at = p.at;
    let h = shape_of(&trace[at..]);
    past(p, h.size, h.wait, h.low != NO_FIELD_NO_RESET)
}

// Where a pass begins.
pub(crate) fn start() -> Passage
    ensures { result ≡ first_passage }
{
    Passage {
        at: 0,
        passed: 0,
        last: 0,
        put: 0,
    }
}

// The pass over all records: where they end, and how many bytes their tidy form has.
pub(crate) fn measured(trace: &[u8]) -> Passage
    requires { length trace.now ≤ longest }
    ensures { (result.at ≡ end_of trace.now) × (result.put ≡ length (tidy_of trace.now)) × (result.at ≤ longest) }
{
    let mut p = start();
    while let Some((r, n)) = read(&trace[p.at..]) {
        p = past(p, n, r.wait, !only_waits(r));
    }
    p
}
