// The predecoded table: made from a ROM, and compared with one.
#![tactic(auto)]

ghost use Rattle.std.specs.Prelude.{◌≡◌, ◌*◌, ◌<◌, ◌≤◌, length};
ghost use Rattle.chip.specs.State.{rom0502, rom0504};
ghost use Rattle.table.specs.Table.{byte_of, stale_of, table_of};

use fetch::Origin;

// Byte j of the table of a ROM.
fn expected(rom: &[u8], j: usize) -> u8
    requires rom0502_in_bounds { rom0502 ≤ length rom.now }
    requires j_bound { j < 4 * rom0504 }
    ensures { result ≡ byte_of rom.now j }
{
    let p = j / 4;
    let k = j % 4;
    if k < 3 {
        fetch::byte_at(Origin::Rom, rom, (p + k) as u16)
    } else {
        fetch::info_at(Origin::Rom, rom, p as u16)
    }
}

// Writes the table of a ROM.
pub fn fill(rom: &[u8], table: &mut [u8])
    requires { (rom0502 ≤ length rom.now) × (length rom.now ≤ rom0504) × (length table.old ≡ 4 * length rom.now) }
    ensures { table.new ≡ table_of rom.now }
{
    for (j, byte) in table.iter_mut().enumerate() {
        *byte = expected(rom, j);
    }
}

// The first byte in which a table is not the ROM's.
pub fn stale(rom: &[u8], table: &[u8]) -> Option<usize>
    requires { (rom0502 ≤ length rom.now) × (length rom.now ≤ rom0504) × (length table.now ≡ 4 * length rom.now) }
    ensures { result ≡ stale_of rom.now table.now }
{
    for (at, &byte) in table.iter().enumerate() {
        if byte != expected(rom, at) {
            return Some(at);
        }
    }
    None
}
