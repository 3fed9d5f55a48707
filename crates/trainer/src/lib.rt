// The trainer's step: one step on a machine record that the window lends, answering as the plain run does for budget 1.
#![tactic(auto)]

ghost use Rattle.std.specs.Prelude.{◌≡◌};
ghost use Rattle.image.specs.Image.{image_of, machine_of};
ghost use Rattle.trainer.specs.Trainer.{Trains};

use calls::{Answer, plain_run};
use chip::Machine;
use image::Image;

// The machine after the step, and what the step answers.
#[derive(Clone, Copy)]
pub struct Trained {
    pub machine: Machine,
    pub answer: Answer,
}

// The image of a machine: its nibbles, and the scalars behind them.
fn image_of(m: Machine) -> Image
    ensures { result ≡ image_of m }
{
    let mut s = [0u8; Machine::IMAGE];
    s[..Machine::NIBBLES].copy_from_slice(&m.mem);
    image::store(m.cpu, &mut s);
    s
}

// The machine that an image holds.
fn machine_of(s: Image) -> Machine
    ensures { result ≡ machine_of s }
{
    let mut mem = [0u8; Machine::NIBBLES];
    mem.copy_from_slice(&s[..Machine::NIBBLES]);
    let cpu = image::load(&s);
    Machine { mem, cpu }
}

// The step on a machine by value. Where no step is made the machine itself is handed back, and not the one read from its image: the image has no
// place for the four highest bits of `pins`.
pub fn step_by_value(rom: &[u8], m: Machine, trace: &[u8], log: &mut [u8], start: usize) -> Trained
    ensures { Trains rom.now m trace.now log.old start result.answer result.machine log.new }
{
    let mut state = image_of(m);
    let answer = plain_run(rom, &mut state, trace, log, start, 1);
    let after = machine_of(state);
    if answer.steps == 0 {
        Trained { machine: m, answer }
    } else {
        Trained {
            machine: after,
            answer,
        }
    }
}

// The step on a record that the window lends, and finds changed.
pub fn step(rom: &[u8], m: &mut Machine, trace: &[u8], log: &mut [u8], start: usize) -> Answer
    ensures { Trains rom.now m.old trace.now log.old start result m.new log.new }
{
    let r = step_by_value(rom, *m, trace, log, start);
    *m = r.machine;
    r.answer
}
