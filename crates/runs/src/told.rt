// What a run answers, with a stop at an undefined code told by the code's kind. It stands behind the run's steps, in no function with them: there it would slow
// every step (docs/SPEED.md).
ghost use Rattle.std.specs.Prelude.{◌≡◌, ◌≤◌, length};
ghost use Rattle.chip.specs.State.{rom0502};
ghost use Rattle.fetch.specs.Fetch.{size_of, code_at};
ghost use Rattle.step.specs.Told.{stop_at};
ghost use Rattle.runs.specs.Answer.{ran_told};

use crate::Ran;
use codes::Kind;
use decoder::kinds::kind;
use fetch::{Code, Origin, code_at};
use numbers::{BANK, CODE, REGISTER};

// The stops at an undefined code, as a run has them.
const CODE_STOP: u8 = CODE as u8;

const REGISTER_STOP: u8 = REGISTER as u8;

const BANK_STOP: u8 = BANK as u8;

// The stop at an undefined code, by its kind.
fn stop_at(k: Code) -> u8
    ensures { result ≡ stop_at k }
{
    match kind(k.b0, k.b1) {
        Kind::Defined => CODE_STOP,
        Kind::Undefined => CODE_STOP,
        Kind::Register => REGISTER_STOP,
        Kind::Bank => BANK_STOP,
    }
}

// What the run r answers.
pub fn told(origin: Origin, code: &[u8], r: Ran) -> Ran
    requires { rom0502 ≤ size_of origin (length code.now) }
    ensures { result ≡ ran_told (code_at origin code.now) r }
{
    if r.number == CODE_STOP {
        let mut x = r;
        x.number = stop_at(code_at(origin, code, r.address));
        x
    } else {
        r
    }
}
