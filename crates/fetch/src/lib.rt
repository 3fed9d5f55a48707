// Where codes come from: the ROM, or the table that predecode made of it.
#![tactic(auto)]

ghost use Rattle.std.specs.Prelude.{◌≡◌, ◌*◌, ◌<◌, ◌≤◌, ◌+◌, length, get_or};
ghost use Rattle.chip.specs.State.{wrap_of, rom0502};
ghost use Rattle.fetch.specs.Fetch.{size_of, rom_byte, entry_byte, code_at};

#[derive(Clone, Copy)]
pub enum Origin {
    Rom,
    Table,
}

// A code: its three bytes, and its length + 4 * cycles, 0 if it is undefined.
#[derive(Clone, Copy)]
pub struct Code {
    pub b0: u8,
    pub b1: u8,
    pub b2: u8,
    pub info: u8,
}

// N, from the length of what is read.
pub fn size(origin: Origin, len: usize) -> usize
    ensures { result ≡ size_of origin len }
{
    match origin {
        Origin::Rom => len,
        Origin::Table => len / 4,
    }
}

fn rom_byte(rom: &[u8], p: u16, k: u16) -> u8
    requires rom0502_in_bounds { rom0502 ≤ length rom.now }
    requires k_bound { k < 4 }
    ensures { result ≡ rom_byte rom.now p k }
{
    let i = chip::memory::wrap(rom.len(), p % 4096 + k);
    rom[i as usize]
}

fn entry_byte(table: &[u8], p: u16, k: usize) -> u8
    requires rom0502_in_bounds { 4 * rom0502 ≤ length table.now }
    requires k_bound { k < 4 }
    ensures { result ≡ entry_byte table.now p k }
{
    let i = chip::memory::wrap(table.len() / 4, p);
    table[4 * (i as usize) + k]
}

#[tactic(auto, unfolding(crate::specs::Fetch::code_at))]
fn rom_code(rom: &[u8], p: u16) -> Code
    requires { rom0502 ≤ length rom.now }
    ensures { result ≡ code_at Origin.Rom rom.now p }
{
    let b0 = rom_byte(rom, p, 0);
    let b1 = rom_byte(rom, p, 1);
    let b2 = rom_byte(rom, p, 2);
    let info = codes::info(b0, b1);
    Code { b0, b1, b2, info }
}

#[tactic(auto, unfolding(crate::specs::Fetch::code_at))]
fn table_code(table: &[u8], p: u16) -> Code
    requires { 4 * rom0502 ≤ length table.now }
    ensures { result ≡ code_at Origin.Table table.now p }
{
    let b0 = entry_byte(table, p, 0);
    let b1 = entry_byte(table, p, 1);
    let b2 = entry_byte(table, p, 2);
    let info = entry_byte(table, p, 3);
    Code { b0, b1, b2, info }
}

// The code at an address.
pub fn code_at(origin: Origin, code: &[u8], p: u16) -> Code
    requires { rom0502 ≤ size_of origin (length code.now) }
    ensures { result ≡ code_at origin code.now p }
{
    match origin {
        Origin::Rom => rom_code(code, p),
        Origin::Table => table_code(code, p),
    }
}

// Its first byte alone.
#[tactic(auto, unfolding(crate::specs::Fetch::code_at))]
pub fn byte_at(origin: Origin, code: &[u8], p: u16) -> u8
    requires { rom0502 ≤ size_of origin (length code.now) }
    ensures { result ≡ (code_at origin code.now p).b0 }
{
    match origin {
        Origin::Rom => rom_byte(code, p, 0),
        Origin::Table => entry_byte(code, p, 0),
    }
}

// Its length and cycles alone.
#[tactic(auto, unfolding(crate::specs::Fetch::code_at))]
pub fn info_at(origin: Origin, code: &[u8], p: u16) -> u8
    requires { rom0502 ≤ size_of origin (length code.now) }
    ensures { result ≡ (code_at origin code.now p).info }
{
    match origin {
        Origin::Rom => codes::info(rom_byte(code, p, 0), rom_byte(code, p, 1)),
        Origin::Table => entry_byte(code, p, 3),
    }
}
