// The budget of steps that a text says. The text is read in pieces, so that it may have any length.
ghost use Rattle.std.specs.Prelude.{◌≡◌};
ghost use Rattle.text.specs.Budget.{is_white, is_digit, limited, steps_of};
ghost use Rattle.text.specs.Pieces.{pushed as pushedBy, read_before, read_digits, read_after, read_on, absorbed, said_of};
ghost use Rattle.text.specs.declared.budget.Seen.TheVariants.{Before};

// The largest budget.
const LARGEST: u64 = 4294967295;

// What was seen of a text so far: white space alone; digits behind it, with their value; white space behind those; or what is no budget.
#[derive(Clone, Copy)]
pub enum Seen {
    Before,
    Digits(u64),
    After(u64),
    Spoilt,
}

#[tactic(auto, unfolding(crate::specs::Budget::is_white))]
pub fn is_white(b: u8) -> bool
    ensures { result ≡ is_white b }
{
    matches!(b, 9..=13 | 32)
}

#[tactic(auto, unfolding(crate::specs::Budget::is_digit))]
fn is_digit(b: u8) -> bool
    ensures { result ≡ is_digit b }
{
    b.is_ascii_digit()
}

// The value with one more digit; one that is too large stays as it is, so that it never wraps.
#[tactic(auto, unfolding(crate::specs::Pieces::pushed))]
fn pushed(v: u64, b: u8) -> u64
    ensures { result ≡ pushedBy v b }
{
    if v <= LARGEST {
        10 * v + ((b % 16) as u64)
    } else {
        v
    }
}

#[tactic(auto, unfolding(crate::specs::Pieces::read_before))]
fn read_before(b: u8) -> Seen
    ensures { result ≡ read_before b }
{
    if is_white(b) {
        Seen::Before
    } else if is_digit(b) {
        Seen::Digits(pushed(0, b))
    } else {
        Seen::Spoilt
    }
}

#[tactic(auto, unfolding(crate::specs::Pieces::read_after))]
fn read_after(v: u64, b: u8) -> Seen
    ensures { result ≡ read_after v b }
{
    if is_white(b) {
        Seen::After(v)
    } else {
        Seen::Spoilt
    }
}

#[tactic(auto, unfolding(crate::specs::Pieces::read_digits))]
fn read_digits(v: u64, b: u8) -> Seen
    ensures { result ≡ read_digits v b }
{
    if is_digit(b) {
        Seen::Digits(pushed(v, b))
    } else {
        read_after(v, b)
    }
}

#[tactic(auto, unfolding(crate::specs::Pieces::read_on))]
fn read_on(s: Seen, b: u8) -> Seen
    ensures { result ≡ read_on s b }
{
    match s {
        Seen::Before => read_before(b),
        Seen::Digits(v) => read_digits(v, b),
        Seen::After(v) => read_after(v, b),
        Seen::Spoilt => Seen::Spoilt,
    }
}

pub fn start() -> Seen
    ensures { result ≡ Before }
{
    Seen::Before
}

// What is seen with one more piece of the text.
pub fn absorb(s: Seen, piece: &[u8]) -> Seen
    ensures { result ≡ absorbed s piece.now }
{
    let mut seen = s;
    for &b in piece {
        seen = read_on(seen, b);
    }
    seen
}

#[tactic(auto, unfolding(crate::specs::Budget::limited))]
fn fitting(v: u64) -> Option<u32>
    ensures { result ≡ limited v }
{
    if v <= LARGEST { Some(v as u32) } else { None }
}

// The budget that the text says, if it says one, once all its pieces are absorbed.
#[tactic(auto, unfolding(crate::specs::Pieces::said_of))]
pub fn said(s: Seen) -> Option<u32>
    ensures { result ≡ said_of s }
{
    match s {
        Seen::Digits(v) | Seen::After(v) => fitting(v),
        Seen::Before | Seen::Spoilt => None,
    }
}

// A budget that is none counts as 0.
#[tactic(auto, unfolding(crate::specs::Budget::steps_of))]
pub fn steps(budget: Option<u32>) -> u32
    ensures { result ≡ steps_of budget }
{
    budget.unwrap_or(0)
}
