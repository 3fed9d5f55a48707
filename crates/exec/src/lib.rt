// The effect of an instruction.
#![tactic(auto)]

ghost use Rattle.std.specs.Prelude.{◌≡◌, ◌≤◌, length};
ghost use Rattle.chip.specs.State.{at, rom0502};
ghost use Rattle.fetch.specs.Fetch.{size_of, code_at};
ghost use Rattle.forms.specs.Operations.{effect_of};
ghost use Rattle.exec.specs.Exec.{facing};

use chip::{Cpu, DataMemory, Timing};
use codes::Instr;
use effects::Effect;
use fetch::Origin;
use rows::cpu_control;

mod rows;

// What the instruction i does, n the address after it.
pub fn effect_of(
    i: Instr,
    origin: Origin,
    code: &[u8],
    mem: &DataMemory,
    pc: u16,
    smb: u8,
    srb: u8,
    mode: u8,
    effect: u8,
    pins: u32,
    n: u16,
) -> Effect
    requires { rom0502 ≤ size_of origin (length code.now) }
    ensures { result ≡ effect_of (λ p. (code_at origin code.now p).b0) i (at mem.now (facing pc smb srb mode effect pins)) n }
{
    let c = Cpu {
        pc: pc,
        smb: smb,
        srb: srb,
        mode: mode,
        effect: effect,
        release: 0,
        pins: pins,
        clock: 0,
        cursor: 0,
        timing: Timing { basic: 0, hold: 0 },
    };
    cpu_control(i, origin, code, mem, c, n)
}
