// How the buffers of a call for several heads fall to its heads: whether counts, lists and lengths fit together, where a head's trace starts, and how much
// of the log is a head's.
#![tactic(auto)]

ghost use Rattle.std.specs.Prelude.{◌≡◌, ◌≤◌, eqb, length, take};
ghost use Rattle.parts.specs.Parts.{together, heads_fit, heads_number, share_of};
ghost use Rattle.parts.specs.Judged.{number_of, number_in};

use numbers::{HEADS, TURN};

// The most heads that a call serves.
pub const MOST: usize = 8;

// Why a call is refused before the tests of a run: its lists and buffers don't fit its heads, or a turn has no steps.
#[derive(Clone, Copy, PartialEq, Eq, Debug)]
pub enum Unfit {
    Heads,
    Turn,
}

impl Unfit {
    pub fn number(self) -> u32
        ensures { result ≡ number_of self }
    {
        match self {
            Unfit::Heads => HEADS,
            Unfit::Turn => TURN,
        }
    }
}

// The tests that come before those of a run, the heads' first.
#[tactic(auto, unfolding(crate::specs::Parts::heads_number))]
pub fn judge_heads(
    heads: u32,
    traces: usize,
    lens: &[u64],
    starts: &[u64],
    q: u32,
) -> Result<(), Unfit>
    ensures { number_in result ≡ heads_number heads traces lens.now starts.now q }
{
    if !heads_fit(heads as usize, traces, lens, starts) {
        return Err(Unfit::Heads);
    }
    if q == 0 {
        return Err(Unfit::Turn);
    }
    Ok(())
}

// A list of another size would leave a head without its trace or its start, or have one too many.
#[tactic(auto, unfolding(crate::specs::Parts::heads_fit))]
fn heads_fit(heads: usize, traces: usize, lens: &[u64], starts: &[u64]) -> bool
    ensures { result ≡ heads_fit heads traces lens.now starts.now }
{
    1 <= heads
        && heads <= MOST
        && lens.len() == heads
        && starts.len() == heads
        && adds_up(lens, traces)
}

// Each length is taken off what is left of the bytes: a sum of the lengths could wrap, and then agree with the bytes by chance.
#[tactic(auto, unfolding(crate::specs::Parts::together), using(crate::proofs::Laws::together_more))]
fn adds_up(lens: &[u64], bytes: usize) -> bool
    ensures { result ≡ eqb (together lens.now) bytes }
{
    let mut left = bytes as u64;
    for &next in lens {
        if next > left {
            return false;
        }
        left -= next;
    }
    left == 0
}

// Where head i's trace starts: behind the traces of the heads before it.
#[tactic(auto, unfolding(crate::specs::Parts::together), using(crate::proofs::Laws::together_more))]
pub fn trace_start(lens: &[u64], i: usize) -> usize
    requires i_in_bounds { i ≤ length lens.now }
    requires lens_bound { together lens.now ≤ 18446744073709551615 }
    ensures { result ≡ together (take i lens.now) }
{
    let mut at: usize = 0;
    for &length in &lens[..i] {
        at += length as usize;
    }
    at
}

// Equal parts of whole bytes: what is left over of the log is no head's.
pub fn share(log: usize, heads: usize) -> usize
    requires { 1 ≤ heads }
    ensures { result ≡ share_of log heads }
{
    log / heads
}
