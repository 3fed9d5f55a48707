// The nibbles kept beside the machine, so that a stop can put them back.
ghost use Rattle.std.specs.Prelude.{◌≡◌, cond};
ghost use Rattle.chip.specs.State.{nibbles};

use chip::{DataMemory, Machine};

// As many as the chip has, so that the compiler knows the count.
pub fn copy(from: &DataMemory, to: &mut DataMemory)
    ensures { to.new ≡ from.now }
{
    let n = Machine::NIBBLES;
    to[..n].copy_from_slice(&from[..n]);
}

// Puts the kept nibbles back.
pub fn put_back(mem: &mut DataMemory, saved: &DataMemory, kept: bool)
    ensures { mem.new ≡ cond kept saved.now mem.old }
{
    if kept {
        copy(saved, mem);
    }
}

// Keeps the nibbles where they are not kept yet.
pub fn keep(mem: &DataMemory, saved: &mut DataMemory, kept: bool)
    ensures { saved.new ≡ cond kept saved.old mem.now }
{
    if kept {
        return;
    }
    copy(mem, saved);
}
