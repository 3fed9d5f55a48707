// The codes of the SAM47: the instruction of each printed row, and the length and cycles of every code.
#![tactic(auto)]

mod first;
pub mod lengths;
pub mod second;

ghost use Rattle.std.specs.Borrow.{Bor};
ghost use Rattle.std.specs.Prelude.{◌≡◌};
ghost use Rattle.codes.specs.Decode.{info_of};

use first::entry;
use lengths::MARK;
use second::{info_bit, info_d9, info_db, info_dc, info_dd};

// What a bit instruction names: DA.b by its address and bit; mema.b by the low byte of its address, FB0H to FBFH or FF0H to FFFH, and its bit; memb.@L by
// memb's bits 5 to 2 in their places; @H+DA.b by DA's low nibble and the bit.
#[derive(Clone, Copy)]
pub enum Place {
    Da(u8, u8),
    Mema(u8, u8),
    Memb(u8),
    Hda(u8, u8),
}

// One variant for each row of the binary code summaries, in the printed order; the rows of a bit instruction differ in the place alone. A register is its
// number in Tables 5-7 and 5-8. REF has the address in the reference area, JR #im the distance from the next address forward or from its own back.
#[derive(Clone, Copy)]
pub enum Instr {
    Undefined,
    // Table 5-15, CPU control.
    Scf,
    Rcf,
    Ccf,
    Ei,
    Di,
    Idle,
    Stop,
    Nop,
    Smb(u8),
    Srb(u8),
    Ref(u8),
    // Table 5-16, program control.
    CpseRIm(u8, u8),
    CpseHlIm(u8),
    CpseAR(u8),
    CpseAHl,
    CpseEaHl,
    CpseEaRr(u8),
    Jp(u16),
    Jps(u16),
    JrForward(u8),
    JrBack(u8),
    JrWx,
    JrEa,
    Call(u16),
    Calls(u16),
    Ret,
    Iret,
    Sret,
    // Table 5-17, data transfer.
    XchADa(u8),
    XchARa(u8),
    XchARra(u8),
    XchEaDa(u8),
    XchEaRrb(u8),
    XchEaHl,
    Xchi,
    Xchd,
    LdAIm(u8),
    LdARra(u8),
    LdADa(u8),
    LdARa(u8),
    LdRaIm(u8, u8),
    LdRrImm(u8, u8),
    LdDaA(u8),
    LdRaA(u8),
    LdEaHl,
    LdEaDa(u8),
    LdEaRrb(u8),
    LdHlA,
    LdDaEa(u8),
    LdRrbEa(u8),
    LdHlEa,
    Ldi,
    Ldd,
    LdcWx,
    LdcEa,
    Rrc,
    PushRr(u8),
    PushSb,
    PopRr(u8),
    PopSb,
    // Table 5-18, logic.
    AndAIm(u8),
    AndAHl,
    AndEaRr(u8),
    AndRrbEa(u8),
    OrAIm(u8),
    OrAHl,
    OrEaRr(u8),
    OrRrbEa(u8),
    XorAIm(u8),
    XorAHl,
    XorEaRr(u8),
    XorRrbEa(u8),
    Com,
    // Table 5-19, arithmetic.
    AdcAHl,
    AdcEaRr(u8),
    AdcRrbEa(u8),
    AdsAIm(u8),
    AdsEaImm(u8),
    AdsAHl,
    AdsEaRr(u8),
    AdsRrbEa(u8),
    SbcAHl,
    SbcEaRr(u8),
    SbcRrbEa(u8),
    SbsAHl,
    SbsEaRr(u8),
    SbsRrbEa(u8),
    DecsR(u8),
    DecsRr(u8),
    IncsR(u8),
    IncsDa(u8),
    IncsHl,
    IncsRrb(u8),
    // Table 5-20, bit manipulation.
    BtstC,
    Btst(Place),
    Btsf(Place),
    Btstz(Place),
    Bits(Place),
    Bitr(Place),
    Band(Place),
    Bor(Place),
    Bxor(Place),
    LdbFromC(Place),
    LdbToC(Place),
}

// What a code is: that of a row, with a length; undefined; undefined for a register of Table 5-7 alone that is outside its letter; undefined for the
// number of an SMB or SRB alone that is outside its set.
#[derive(Clone, Copy)]
pub enum Kind {
    Defined,
    Undefined,
    Register,
    Bank,
}

// Length and cycles of a code, from its first two bytes: length + 4 * cycles, and 0 for an undefined code.
pub fn info(b0: u8, b1: u8) -> u8
    ensures { result ≡ info_of b0 b1 }
{
    let e = entry(b0);
    if e < MARK {
        return e;
    }
    match b0 {
        0xD9 => info_d9(b1),
        0xDB => info_db(b1),
        0xDC => info_dc(b1),
        0xDD => info_dd(b1),
        _ => info_bit(b1),
    }
}
