// The data address that an operand names, by EMB and SMB.
ghost use Rattle.std.specs.Prelude.{◌≡◌, ◌<◌};
ghost use Rattle.registers.specs.Addresses.{direct_of, indirect_of, hl_of, wx_of, wl_of, hda_of, mema_of, memb_of, memb_bit};

use super::{emb, pair, register};
use chip::DataMemory;

// DA
#[tactic(auto, unfolding(crate::specs::Addresses::direct_of))]
pub fn direct(mem: &DataMemory, smb: u8, da: u8) -> u16
    ensures { result ≡ direct_of mem.now smb da }
{
    if emb(mem) == 1 {
        return 256 * ((smb as u16) % 16) + (da as u16);
    }
    if da < 128 {
        da as u16
    } else {
        0xF00 + (da as u16)
    }
}

// An offset in the bank of an indirect address.
#[tactic(auto, unfolding(crate::specs::Addresses::indirect_of))]
pub fn indirect(mem: &DataMemory, smb: u8, v: u8) -> u16
    ensures { result ≡ indirect_of mem.now smb v }
{
    if emb(mem) == 1 {
        256 * ((smb as u16) % 16) + (v as u16)
    } else {
        v as u16
    }
}

// @HL
#[tactic(auto, unfolding(crate::specs::Addresses::hl_of))]
pub fn hl(mem: &DataMemory, smb: u8, srb: u8) -> u16
    ensures { result ≡ hl_of mem.now smb srb }
{
    indirect(mem, smb, pair(mem, srb, 2))
}

// @WX
pub fn wx(mem: &DataMemory, srb: u8) -> u16
    ensures { result ≡ wx_of mem.now srb }
{
    pair(mem, srb, 4) as u16
}

// @WL
#[tactic(auto, unfolding(crate::specs::Addresses::wl_of))]
pub fn wl(mem: &DataMemory, srb: u8) -> u16
    ensures { result ≡ wl_of mem.now srb }
{
    (register(mem, srb, 2) as u16) + 16 * (register(mem, srb, 5) as u16)
}

// @H+DA
#[tactic(auto, unfolding(crate::specs::Addresses::hda_of))]
pub fn hda(mem: &DataMemory, smb: u8, srb: u8, da: u8) -> u16
    ensures { result ≡ hda_of mem.now smb srb da }
{
    indirect(mem, smb, 16 * register(mem, srb, 3) + da % 16)
}

// mema
pub fn mema(a: u8) -> u16
    ensures { result ≡ mema_of a }
{
    0xF00 + (a as u16)
}

// memb.@L, its address and its bit
#[tactic(auto, unfolding(crate::specs::Addresses::memb_of))]
pub fn memb(mem: &DataMemory, srb: u8, a: u8) -> u16
    ensures { result ≡ memb_of mem.now srb a }
{
    0xFC0 + (a as u16) % 64 + (register(mem, srb, 2) as u16) / 4
}

pub fn memb_bit(mem: &DataMemory, srb: u8) -> u8
    ensures { (result ≡ memb_bit mem.now srb) × (result < 4) }
{
    register(mem, srb, 2) % 4
}
