// The commit of an effect, the one place where it is stored.
#![tactic(auto)]

ghost use Rattle.std.specs.Prelude.{◌≡◌, [], ◌∷◌, ◌<◌};
ghost use Rattle.effects.specs.Effects.{up_to_end, puts_of, three_of, pushed_at, pushed_of, applied_to};

use chip::DataMemory;
use chip::memory::{put, put_at};
use effects::{Effect, NONE, PUSH, part};

fn puts2(mem: &mut DataMemory, w0: u16, w1: u16)
    ensures { mem.new ≡ puts_of mem.old (up_to_end (w0 ∷ w1 ∷ [])) }
{
    if w0 == NONE {
        return;
    }
    put(mem, w0);
    if w1 == NONE {
        return;
    }
    put(mem, w1);
}

fn puts4(mem: &mut DataMemory, w0: u16, w1: u16, w2: u16, w3: u16)
    ensures { mem.new ≡ puts_of mem.old (up_to_end (w0 ∷ w1 ∷ w2 ∷ w3 ∷ [])) }
{
    if w0 == NONE {
        return;
    }
    put(mem, w0);
    if w1 == NONE {
        return;
    }
    put(mem, w1);
    if w2 == NONE {
        return;
    }
    put(mem, w2);
    if w3 == NONE {
        return;
    }
    put(mem, w3);
}

fn three(mem: &mut DataMemory, s: u16, x: u16, y: u16, z: u16)
    requires { s < 1000 }
    ensures { mem.new ≡ three_of mem.old s x y z }
{
    put_at(mem, registers::stack_at(s, 0), (x % 16) as u8);
    put_at(mem, registers::stack_at(s, 1), (y % 16) as u8);
    put_at(mem, registers::stack_at(s, 2), (z % 16) as u8);
}

fn push_at(mem: &mut DataMemory, s: u16, back: u16, psw: u16)
    requires { s < 256 }
    ensures { mem.new ≡ pushed_at mem.old s back psw }
{
    three(mem, s, back / 256, back / 4096 % 4, back);
    three(mem, s + 3, back / 16, psw, psw / 16);
    put(mem, registers::sp_low(s));
    put(mem, registers::sp_high(s));
}

#[tactic(auto, unfolding(effects::specs::Effects::pushed_of))]
fn push(mem: &mut DataMemory, back: u16, psw: u16)
    ensures { mem.new ≡ pushed_of mem.old back psw }
{
    let s = (registers::sp(mem) + 250) % 256;
    push_at(mem, s, back, psw);
}

#[tactic(auto, unfolding(effects::specs::Effects::applied_to))]
pub fn commit_effect(mem: &mut DataMemory, e: Effect)
    ensures { mem.new ≡ applied_to mem.old e }
{
    let w2 = part(e.writes, 2);
    let w3 = part(e.writes, 3);
    if e.kind == PUSH {
        push(mem, part(e.writes, 0), part(e.writes, 1));
        puts2(mem, w2, w3);
    } else {
        puts4(mem, part(e.writes, 0), part(e.writes, 1), w2, w3);
    }
}

// The same where nothing is logged: with one function for both, which then has two callers, the compiler makes neither part of the run's loop.
#[tactic(auto, unfolding(effects::specs::Effects::applied_to))]
pub fn commit_quiet(mem: &mut DataMemory, e: Effect)
    ensures { mem.new ≡ applied_to mem.old e }
{
    let w2 = part(e.writes, 2);
    let w3 = part(e.writes, 3);
    if e.kind == PUSH {
        push(mem, part(e.writes, 0), part(e.writes, 1));
        puts2(mem, w2, w3);
    } else {
        puts4(mem, part(e.writes, 0), part(e.writes, 1), w2, w3);
    }
}
