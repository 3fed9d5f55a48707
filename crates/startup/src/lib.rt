// The calls before a run: the table of a ROM, and the fresh state of a ROM.
#![tactic(auto)]

ghost use Rattle.std.specs.Prelude.{◌≡◌};
ghost use Rattle.verdicts.specs.Judged.{number_in};
ghost use Rattle.startup.specs.Startup.{predecode_number, predecode_table, fresh_number, fresh_state};

use chip::Machine;
use table::fill;
use verdicts::{Refusal, judge_rom, judge_size};

// Refuses with 1 or 2, or writes the ROM's table.
pub fn predecode(rom: &[u8], table: &mut [u8]) -> Result<(), Refusal>
    ensures { (number_in result ≡ predecode_number rom.now table.old) × (table.new ≡ predecode_table rom.now table.old) }
{
    judge_rom(rom)?;
    judge_size(rom, table)?;
    fill(rom, table);
    Ok(())
}

// Refuses with 1 or 3, or writes the fresh state.
pub fn fresh_state(rom: &[u8], state: &mut [u8]) -> Result<(), Refusal>
    ensures { (number_in result ≡ fresh_number rom.now state.old) × (state.new ≡ fresh_state rom.now state.old) }
{
    judge_rom(rom)?;
    let Some(image) = state.as_mut_array() else {
        return Err(Refusal::Image);
    };
    let m = Machine::fresh(rom);
    image[..Machine::NIBBLES].copy_from_slice(&m.mem);
    image::store(m.cpu, image);
    Ok(())
}
