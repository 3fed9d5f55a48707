// The tidy bytes: a pass that writes what each record adds.
ghost use Rattle.std.specs.Prelude.{◌≡◌, ◌∷◌, ◌++◌, ◌+◌, ◌-◌, ◌≤◌, ◌<◌, length, take, drop};
ghost use Rattle.std.proofs.lemmas.List.Edits.{sets};
ghost use Rattle.trace.specs.Trace.{longest, end_of};
ghost use Rattle.tidy.specs.Tidy.{wait_bytes, full_wait_bytes, tidy_of};
ghost use Rattle.tidy.specs.Passage.{Underway, Readable, added_of, further_of};

use super::passage::{
    LONGEST_WAIT, MAP, MAP_AND_WAIT, NO_FIELD_NO_RESET, Passage, full_waits, further_again,
    own_wait, start,
};
use words::put_word;

// Where the map's high byte stands, and what it is without and with a wait.
const HIGH: usize = 1;

const NO_WAIT: u8 = 0;

const HAS_WAIT: u8 = 1;

// Writes a record's map, whose low byte is `low`, and its wait if it is not 0. Answers where they end.
fn put_map(out: &mut [u8], at: usize, low: u8, wait: u16) -> usize
    requires { at + length (low ∷ wait_bytes wait) ≤ length out.old }
    ensures { (result ≡ at + length (low ∷ wait_bytes wait)) × (out.new ≡ sets out.old at (low ∷ wait_bytes wait)) }
{
    out[at] = low;
    if wait == 0 {
        out[at + HIGH] = NO_WAIT;
        return at + MAP;
    }
    out[at + HIGH] = HAS_WAIT;
    put_word(out, at + MAP, wait);
    at + MAP_AND_WAIT
}

// Writes n wait-only records of the longest wait. Answers where they end.
fn put_full_waits(out: &mut [u8], at: usize, n: usize) -> usize
    requires { at + length (full_wait_bytes n) ≤ length out.old }
    ensures { (result ≡ at + length (full_wait_bytes n)) × (out.new ≡ sets out.old at (full_wait_bytes n)) }
{
    let mut to = at;
    for _ in 0..n {
        to = put_map(out, to, NO_FIELD_NO_RESET, LONGEST_WAIT as u16);
    }
    to
}

// Copies a part of the trace to `out` from `to` on, by a loop: a slice's own copy makes the archive need memmove, and its header promises memcpy and memset alone.
fn put_part(trace: &[u8], from: usize, end: usize, out: &mut [u8], to: usize)
    requires { (from ≤ end) × (end ≤ length trace.now) × (to + (end - from) ≤ length out.old) }
    ensures { out.new ≡ sets out.old to (take (end - from) (drop from trace.now)) }
{
    for (i, &byte) in trace[from..end].iter().enumerate() {
        out[to + i] = byte;
    }
}

// Writes the event whose record p stands before and q behind. The fields end the record and its tidy form alike.
fn put_event(trace: &[u8], p: Passage, q: Passage, out: &mut [u8])
    requires { Underway trace.now p × (q ≡ further_of trace.now p) × (p.put < q.put) × (q.put ≤ length out.old) }
    ensures { out.new ≡ sets out.old p.put (added_of trace.now p) }
{
    let gap = q.passed - p.last;
    let at = p.at;
    let map = put_full_waits(out, p.put, full_waits(gap));
    let to = put_map(out, map, trace[at], own_wait(gap));
    let fields = q.put - to;
    put_part(trace, q.at - fields, q.at, out, to);
}

// One record further, and what it adds written.
fn put_further(trace: &[u8], p: Passage, out: &mut [u8]) -> Passage
    requires { Underway trace.now p × Readable trace.now p.at × (p.put + length (added_of trace.now p) ≤ length out.old) }
    ensures { (result ≡ further_of trace.now p) × (out.new ≡ sets out.old p.put (added_of trace.now p)) }
{
    let q = further_again(trace, p);
    if p.put < q.put {
        put_event(trace, p, q, out);
    }
    q
}

// Writes the tidy form of a trace whose records were all read, from the start of `out` on.
pub(crate) fn write(trace: &[u8], out: &mut [u8])
    requires { (length trace.now ≤ longest) × (end_of trace.now ≡ length trace.now) × (length (tidy_of trace.now) ≤ length out.old) }
    ensures { out.new ≡ tidy_of trace.now ++ drop (length (tidy_of trace.now)) out.old }
{
    let mut p = start();
    while p.at < trace.len() {
        p = put_further(trace, p, out);
    }
}
