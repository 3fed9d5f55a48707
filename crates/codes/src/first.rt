// The table of first bytes.

ghost use Rattle.std.specs.Prelude.{◌≡◌};
ghost use Rattle.codes.specs.Entry.{entry_at};

use crate::lengths::{
    LENGTH_1_CYCLES_1, LENGTH_1_CYCLES_2, LENGTH_1_CYCLES_3, LENGTH_2_CYCLES_2, LENGTH_2_CYCLES_3,
    MARK, UNDEFINED,
};

// Length and cycles by first byte, or the mark.
const CODES: [u8; 256] = [
    UNDEFINED, // 00 undefined
    LENGTH_1_CYCLES_2, // 01 JR #im
    LENGTH_1_CYCLES_2, // 02 JR #im
    LENGTH_1_CYCLES_2, // 03 JR #im
    LENGTH_1_CYCLES_2, // 04 JR #im
    LENGTH_1_CYCLES_2, // 05 JR #im
    LENGTH_1_CYCLES_2, // 06 JR #im
    LENGTH_1_CYCLES_2, // 07 JR #im
    LENGTH_1_CYCLES_2, // 08 JR #im
    LENGTH_1_CYCLES_2, // 09 JR #im
    LENGTH_1_CYCLES_2, // 0A JR #im
    LENGTH_1_CYCLES_2, // 0B JR #im
    LENGTH_1_CYCLES_2, // 0C JR #im
    LENGTH_1_CYCLES_2, // 0D JR #im
    LENGTH_1_CYCLES_2, // 0E JR #im
    LENGTH_1_CYCLES_2, // 0F JR #im
    UNDEFINED, // 10 undefined
    LENGTH_1_CYCLES_2, // 11 JR #im
    LENGTH_1_CYCLES_2, // 12 JR #im
    LENGTH_1_CYCLES_2, // 13 JR #im
    LENGTH_1_CYCLES_2, // 14 JR #im
    LENGTH_1_CYCLES_2, // 15 JR #im
    LENGTH_1_CYCLES_2, // 16 JR #im
    LENGTH_1_CYCLES_2, // 17 JR #im
    LENGTH_1_CYCLES_2, // 18 JR #im
    LENGTH_1_CYCLES_2, // 19 JR #im
    LENGTH_1_CYCLES_2, // 1A JR #im
    LENGTH_1_CYCLES_2, // 1B JR #im
    LENGTH_1_CYCLES_2, // 1C JR #im
    LENGTH_1_CYCLES_2, // 1D JR #im
    LENGTH_1_CYCLES_2, // 1E JR #im
    LENGTH_1_CYCLES_2, // 1F JR #im
    LENGTH_1_CYCLES_3, // 20 REF memc
    LENGTH_1_CYCLES_3, // 21 REF memc
    LENGTH_1_CYCLES_3, // 22 REF memc
    LENGTH_1_CYCLES_3, // 23 REF memc
    LENGTH_1_CYCLES_3, // 24 REF memc
    LENGTH_1_CYCLES_3, // 25 REF memc
    LENGTH_1_CYCLES_3, // 26 REF memc
    LENGTH_1_CYCLES_3, // 27 REF memc
    LENGTH_1_CYCLES_1, // 28 POP RR
    LENGTH_1_CYCLES_1, // 29 PUSH RR
    LENGTH_1_CYCLES_1, // 2A POP RR
    LENGTH_1_CYCLES_1, // 2B PUSH RR
    LENGTH_1_CYCLES_1, // 2C POP RR
    LENGTH_1_CYCLES_1, // 2D PUSH RR
    LENGTH_1_CYCLES_1, // 2E POP RR
    LENGTH_1_CYCLES_1, // 2F PUSH RR
    LENGTH_1_CYCLES_3, // 30 REF memc
    LENGTH_1_CYCLES_3, // 31 REF memc
    LENGTH_1_CYCLES_3, // 32 REF memc
    LENGTH_1_CYCLES_3, // 33 REF memc
    LENGTH_1_CYCLES_3, // 34 REF memc
    LENGTH_1_CYCLES_3, // 35 REF memc
    LENGTH_1_CYCLES_3, // 36 REF memc
    LENGTH_1_CYCLES_3, // 37 REF memc
    LENGTH_1_CYCLES_1, // 38 CPSE A,@HL
    LENGTH_1_CYCLES_1, // 39 AND A,@HL
    LENGTH_1_CYCLES_1, // 3A OR A,@HL
    LENGTH_1_CYCLES_1, // 3B XOR A,@HL
    LENGTH_1_CYCLES_1, // 3C SBC A,@HL
    LENGTH_1_CYCLES_1, // 3D SBS A,@HL
    LENGTH_1_CYCLES_1, // 3E ADC A,@HL
    LENGTH_1_CYCLES_1, // 3F ADS A,@HL
    LENGTH_1_CYCLES_3, // 40 REF memc
    LENGTH_1_CYCLES_3, // 41 REF memc
    LENGTH_1_CYCLES_3, // 42 REF memc
    LENGTH_1_CYCLES_3, // 43 REF memc
    LENGTH_1_CYCLES_3, // 44 REF memc
    LENGTH_1_CYCLES_3, // 45 REF memc
    LENGTH_1_CYCLES_3, // 46 REF memc
    LENGTH_1_CYCLES_3, // 47 REF memc
    LENGTH_1_CYCLES_1, // 48 DECS R
    LENGTH_1_CYCLES_1, // 49 DECS R
    LENGTH_1_CYCLES_1, // 4A DECS R
    LENGTH_1_CYCLES_1, // 4B DECS R
    LENGTH_1_CYCLES_1, // 4C DECS R
    LENGTH_1_CYCLES_1, // 4D DECS R
    LENGTH_1_CYCLES_1, // 4E DECS R
    LENGTH_1_CYCLES_1, // 4F DECS R
    LENGTH_1_CYCLES_3, // 50 REF memc
    LENGTH_1_CYCLES_3, // 51 REF memc
    LENGTH_1_CYCLES_3, // 52 REF memc
    LENGTH_1_CYCLES_3, // 53 REF memc
    LENGTH_1_CYCLES_3, // 54 REF memc
    LENGTH_1_CYCLES_3, // 55 REF memc
    LENGTH_1_CYCLES_3, // 56 REF memc
    LENGTH_1_CYCLES_3, // 57 REF memc
    LENGTH_1_CYCLES_1, // 58 INCS R
    LENGTH_1_CYCLES_1, // 59 INCS R
    LENGTH_1_CYCLES_1, // 5A INCS R
    LENGTH_1_CYCLES_1, // 5B INCS R
    LENGTH_1_CYCLES_1, // 5C INCS R
    LENGTH_1_CYCLES_1, // 5D INCS R
    LENGTH_1_CYCLES_1, // 5E INCS R
    LENGTH_1_CYCLES_1, // 5F INCS R
    LENGTH_1_CYCLES_3, // 60 REF memc
    LENGTH_1_CYCLES_3, // 61 REF memc
    LENGTH_1_CYCLES_3, // 62 REF memc
    LENGTH_1_CYCLES_3, // 63 REF memc
    LENGTH_1_CYCLES_3, // 64 REF memc
    LENGTH_1_CYCLES_3, // 65 REF memc
    LENGTH_1_CYCLES_3, // 66 REF memc
    LENGTH_1_CYCLES_3, // 67 REF memc
    UNDEFINED, // 68 undefined
    LENGTH_1_CYCLES_1, // 69 XCH A,Ra
    LENGTH_1_CYCLES_1, // 6A XCH A,Ra
    LENGTH_1_CYCLES_1, // 6B XCH A,Ra
    LENGTH_1_CYCLES_1, // 6C XCH A,Ra
    LENGTH_1_CYCLES_1, // 6D XCH A,Ra
    LENGTH_1_CYCLES_1, // 6E XCH A,Ra
    LENGTH_1_CYCLES_1, // 6F XCH A,Ra
    LENGTH_1_CYCLES_3, // 70 REF memc
    LENGTH_1_CYCLES_3, // 71 REF memc
    LENGTH_1_CYCLES_3, // 72 REF memc
    LENGTH_1_CYCLES_3, // 73 REF memc
    LENGTH_1_CYCLES_3, // 74 REF memc
    LENGTH_1_CYCLES_3, // 75 REF memc
    LENGTH_1_CYCLES_3, // 76 REF memc
    LENGTH_1_CYCLES_3, // 77 REF memc
    UNDEFINED, // 78 undefined
    LENGTH_2_CYCLES_2, // 79 XCH A,DA
    LENGTH_1_CYCLES_2, // 7A XCHI A,@HL
    LENGTH_1_CYCLES_2, // 7B XCHD A,@HL
    UNDEFINED, // 7C undefined
    LENGTH_1_CYCLES_1, // 7D XCH A,@RRa
    LENGTH_1_CYCLES_1, // 7E XCH A,@RRa
    LENGTH_1_CYCLES_1, // 7F XCH A,@RRa
    UNDEFINED, // 80 undefined
    LENGTH_2_CYCLES_2, // 81 LD RR,#imm
    LENGTH_1_CYCLES_1, // 82 INCS RRb
    LENGTH_2_CYCLES_2, // 83 LD RR,#imm
    LENGTH_1_CYCLES_1, // 84 INCS RRb
    LENGTH_2_CYCLES_2, // 85 LD RR,#imm
    LENGTH_1_CYCLES_1, // 86 INCS RRb
    LENGTH_2_CYCLES_2, // 87 LD RR,#imm
    LENGTH_1_CYCLES_1, // 88 RRC A
    LENGTH_2_CYCLES_2, // 89 LD DA,A
    LENGTH_1_CYCLES_2, // 8A LDI A,@HL
    LENGTH_1_CYCLES_2, // 8B LDD A,@HL
    LENGTH_2_CYCLES_2, // 8C LD A,DA
    LENGTH_1_CYCLES_1, // 8D LD A,@RRa
    LENGTH_1_CYCLES_1, // 8E LD A,@RRa
    LENGTH_1_CYCLES_1, // 8F LD A,@RRa
    LENGTH_2_CYCLES_2, // 90 JPS ADR12
    LENGTH_2_CYCLES_2, // 91 JPS ADR12
    LENGTH_2_CYCLES_2, // 92 JPS ADR12
    LENGTH_2_CYCLES_2, // 93 JPS ADR12
    LENGTH_2_CYCLES_2, // 94 JPS ADR12
    LENGTH_2_CYCLES_2, // 95 JPS ADR12
    LENGTH_2_CYCLES_2, // 96 JPS ADR12
    LENGTH_2_CYCLES_2, // 97 JPS ADR12
    LENGTH_2_CYCLES_2, // 98 JPS ADR12
    LENGTH_2_CYCLES_2, // 99 JPS ADR12
    LENGTH_2_CYCLES_2, // 9A JPS ADR12
    LENGTH_2_CYCLES_2, // 9B JPS ADR12
    LENGTH_2_CYCLES_2, // 9C JPS ADR12
    LENGTH_2_CYCLES_2, // 9D JPS ADR12
    LENGTH_2_CYCLES_2, // 9E JPS ADR12
    LENGTH_2_CYCLES_2, // 9F JPS ADR12
    LENGTH_1_CYCLES_1, // A0 NOP
    LENGTH_1_CYCLES_1, // A1 ADS A,#im
    LENGTH_1_CYCLES_1, // A2 ADS A,#im
    LENGTH_1_CYCLES_1, // A3 ADS A,#im
    LENGTH_1_CYCLES_1, // A4 ADS A,#im
    LENGTH_1_CYCLES_1, // A5 ADS A,#im
    LENGTH_1_CYCLES_1, // A6 ADS A,#im
    LENGTH_1_CYCLES_1, // A7 ADS A,#im
    LENGTH_1_CYCLES_1, // A8 ADS A,#im
    LENGTH_1_CYCLES_1, // A9 ADS A,#im
    LENGTH_1_CYCLES_1, // AA ADS A,#im
    LENGTH_1_CYCLES_1, // AB ADS A,#im
    LENGTH_1_CYCLES_1, // AC ADS A,#im
    LENGTH_1_CYCLES_1, // AD ADS A,#im
    LENGTH_1_CYCLES_1, // AE ADS A,#im
    LENGTH_1_CYCLES_1, // AF ADS A,#im
    LENGTH_1_CYCLES_1, // B0 LD A,#im
    LENGTH_1_CYCLES_1, // B1 LD A,#im
    LENGTH_1_CYCLES_1, // B2 LD A,#im
    LENGTH_1_CYCLES_1, // B3 LD A,#im
    LENGTH_1_CYCLES_1, // B4 LD A,#im
    LENGTH_1_CYCLES_1, // B5 LD A,#im
    LENGTH_1_CYCLES_1, // B6 LD A,#im
    LENGTH_1_CYCLES_1, // B7 LD A,#im
    LENGTH_1_CYCLES_1, // B8 LD A,#im
    LENGTH_1_CYCLES_1, // B9 LD A,#im
    LENGTH_1_CYCLES_1, // BA LD A,#im
    LENGTH_1_CYCLES_1, // BB LD A,#im
    LENGTH_1_CYCLES_1, // BC LD A,#im
    LENGTH_1_CYCLES_1, // BD LD A,#im
    LENGTH_1_CYCLES_1, // BE LD A,#im
    LENGTH_1_CYCLES_1, // BF LD A,#im
    LENGTH_2_CYCLES_2, // C0 BITR DA.b
    LENGTH_2_CYCLES_2, // C1 BITS DA.b
    LENGTH_2_CYCLES_2, // C2 BTSF DA.b
    LENGTH_2_CYCLES_2, // C3 BTST DA.b
    LENGTH_1_CYCLES_1, // C4 LD @HL,A
    LENGTH_1_CYCLES_3, // C5 RET
    UNDEFINED, // C6 undefined
    UNDEFINED, // C7 undefined
    LENGTH_1_CYCLES_3, // C8 LDC EA,@EA
    LENGTH_2_CYCLES_2, // C9 ADS EA,#imm
    LENGTH_2_CYCLES_2, // CA INCS DA
    UNDEFINED, // CB undefined
    LENGTH_1_CYCLES_3, // CC LDC EA,@WX
    LENGTH_2_CYCLES_2, // CD LD DA,EA
    LENGTH_2_CYCLES_2, // CE LD EA,DA
    LENGTH_2_CYCLES_2, // CF XCH EA,DA
    LENGTH_2_CYCLES_2, // D0 BITR DA.b
    LENGTH_2_CYCLES_2, // D1 BITS DA.b
    LENGTH_2_CYCLES_2, // D2 BTSF DA.b
    LENGTH_2_CYCLES_2, // D3 BTST DA.b
    UNDEFINED, // D4 undefined
    LENGTH_1_CYCLES_3, // D5 IRET
    LENGTH_1_CYCLES_1, // D6 CCF
    LENGTH_1_CYCLES_1, // D7 BTST C
    UNDEFINED, // D8 undefined
    MARK, // D9 by its second byte
    UNDEFINED, // DA undefined
    MARK, // DB by its second byte
    MARK, // DC by its second byte
    MARK, // DD by its second byte
    UNDEFINED, // DE undefined
    UNDEFINED, // DF undefined
    LENGTH_2_CYCLES_2, // E0 BITR DA.b
    LENGTH_2_CYCLES_2, // E1 BITS DA.b
    LENGTH_2_CYCLES_2, // E2 BTSF DA.b
    LENGTH_2_CYCLES_2, // E3 BTST DA.b
    UNDEFINED, // E4 undefined
    LENGTH_1_CYCLES_3, // E5 SRET
    LENGTH_1_CYCLES_1, // E6 RCF
    LENGTH_1_CYCLES_1, // E7 SCF
    LENGTH_2_CYCLES_3, // E8 CALLS ADR11
    LENGTH_2_CYCLES_3, // E9 CALLS ADR11
    LENGTH_2_CYCLES_3, // EA CALLS ADR11
    LENGTH_2_CYCLES_3, // EB CALLS ADR11
    LENGTH_2_CYCLES_3, // EC CALLS ADR11
    LENGTH_2_CYCLES_3, // ED CALLS ADR11
    LENGTH_2_CYCLES_3, // EE CALLS ADR11
    LENGTH_2_CYCLES_3, // EF CALLS ADR11
    LENGTH_2_CYCLES_2, // F0 BITR DA.b
    LENGTH_2_CYCLES_2, // F1 BITS DA.b
    LENGTH_2_CYCLES_2, // F2 BTSF DA.b
    LENGTH_2_CYCLES_2, // F3 BTST DA.b
    MARK, // F4 by its second byte
    MARK, // F5 by its second byte
    MARK, // F6 by its second byte
    MARK, // F7 by its second byte
    MARK, // F8 by its second byte
    MARK, // F9 by its second byte
    UNDEFINED, // FA undefined
    UNDEFINED, // FB undefined
    MARK, // FC by its second byte
    MARK, // FD by its second byte
    MARK, // FE by its second byte
    MARK, // FF by its second byte
];

// The entry of a first byte.
pub fn entry(b0: u8) -> u8
    ensures { result ≡ entry_at b0 }
{
    CODES[b0 as usize]
}
