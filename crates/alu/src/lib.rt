// The rows of Tables 5-18 to 5-20, a function for each table; what a table does not print goes on to the next. `tag_of` counts the rows of chapter
// 5 in the printed order.
#![tactic(auto)]

ghost use Rattle.std.specs.Borrow.{Bor};
ghost use Rattle.std.specs.Prelude.{◌≡◌, ℕ, ◌≤◌};
ghost use denote.Enum.Declared.{tag_of};
ghost use Rattle.chip.specs.State.{at};
ghost use Rattle.codes.specs.contracts.Instr.{the_type};
ghost use Rattle.forms.specs.Operations.{effect_of};

use chip::{Cpu, DataMemory};
use codes::Instr;
use effects::Effect;
use effects::operands::{direct_in, hl_in, pair_in, reg_in};
use forms::{
    adc_a, adc_pair, ads_a, ads_pair, and_a, and_c, and_pair, at_hl, bit_of, or_a, or_c, or_pair,
    sbc_a, sbc_pair, sbs_a, sbs_pair, set_place, xor_a, xor_c, xor_pair,
};

// Table 5-18, logic.
pub fn logic(i: Instr, mem: &DataMemory, c: Cpu, n: u16) -> Effect
    requires { 61 ≤ tag_of the_type i }
    ensures { (f : ℕ → ℕ) → result ≡ effect_of f i (at mem.now c) n }
{
    match i {
        Instr::AndAIm(v) => and_a(mem, c, n, v),
        Instr::AndAHl => and_a(mem, c, n, at_hl(mem, c)),
        Instr::AndEaRr(r) => and_pair(mem, c, n, 0, r),
        Instr::AndRrbEa(r) => and_pair(mem, c, n, r, 0),
        Instr::OrAIm(v) => or_a(mem, c, n, v),
        Instr::OrAHl => or_a(mem, c, n, at_hl(mem, c)),
        Instr::OrEaRr(r) => or_pair(mem, c, n, 0, r),
        Instr::OrRrbEa(r) => or_pair(mem, c, n, r, 0),
        Instr::XorAIm(v) => xor_a(mem, c, n, v),
        Instr::XorAHl => xor_a(mem, c, n, at_hl(mem, c)),
        Instr::XorEaRr(r) => xor_pair(mem, c, n, 0, r),
        Instr::XorRrbEa(r) => xor_pair(mem, c, n, r, 0),
        Instr::Com => transfer::set_reg(mem, c, n, 0, 15 - reg_in(mem, c, 0)),
        _ => arithmetic_rows(i, mem, c, n),
    }
}

// Table 5-19, arithmetic.
fn arithmetic_rows(i: Instr, mem: &DataMemory, c: Cpu, n: u16) -> Effect
    requires { 74 ≤ tag_of the_type i }
    ensures { (f : ℕ → ℕ) → result ≡ effect_of f i (at mem.now c) n }
{
    match i {
        Instr::AdcAHl => adc_a(mem, c, n, at_hl(mem, c)),
        Instr::AdcEaRr(r) => adc_pair(mem, c, n, 0, r),
        Instr::AdcRrbEa(r) => adc_pair(mem, c, n, r, 0),
        Instr::AdsAIm(v) => arithmetic::add_im_a(mem, c, n, reg_in(mem, c, 0) + v % 16),
        Instr::AdsEaImm(v) => ads_pair(mem, c, n, 0, v),
        Instr::AdsAHl => ads_a(mem, c, n, at_hl(mem, c)),
        Instr::AdsEaRr(r) => ads_pair(mem, c, n, 0, pair_in(mem, c, r)),
        Instr::AdsRrbEa(r) => ads_pair(mem, c, n, r, pair_in(mem, c, 0)),
        Instr::SbcAHl => sbc_a(mem, c, n, at_hl(mem, c)),
        Instr::SbcEaRr(r) => sbc_pair(mem, c, n, 0, r),
        Instr::SbcRrbEa(r) => sbc_pair(mem, c, n, r, 0),
        Instr::SbsAHl => sbs_a(mem, c, n, at_hl(mem, c)),
        Instr::SbsEaRr(r) => sbs_pair(mem, c, n, 0, pair_in(mem, c, r)),
        Instr::SbsRrbEa(r) => sbs_pair(mem, c, n, r, pair_in(mem, c, 0)),
        Instr::DecsR(r) => arithmetic::step_reg(mem, c, n, r, 0, 15),
        Instr::DecsRr(r) => sbs_pair(mem, c, n, r, 1),
        Instr::IncsR(r) => arithmetic::step_reg(mem, c, n, r, 15, 1),
        Instr::IncsDa(a) => arithmetic::increment_at(mem, c, n, direct_in(mem, c, a)),
        Instr::IncsHl => arithmetic::increment_at(mem, c, n, hl_in(mem, c)),
        Instr::IncsRrb(r) => ads_pair(mem, c, n, r, 1),
        _ => bit_rows(i, mem, c, n),
    }
}

// Table 5-20, bit manipulation.
fn bit_rows(i: Instr, mem: &DataMemory, c: Cpu, n: u16) -> Effect
    requires { 94 ≤ tag_of the_type i }
    ensures { (f : ℕ → ℕ) → result ≡ effect_of f i (at mem.now c) n }
{
    match i {
        Instr::BtstC => arithmetic::skip_if(c, n, registers::carry(mem) == 1),
        Instr::Btst(p) => arithmetic::skip_if(c, n, bit_of(mem, c, p) == 1),
        Instr::Btsf(p) => arithmetic::skip_if(c, n, bit_of(mem, c, p) == 0),
        Instr::Btstz(p) => bits::test_clear(mem, c, n, bits::spot_of(mem, c, p)),
        Instr::Bits(p) => set_place(mem, c, n, p, 1),
        Instr::Bitr(p) => set_place(mem, c, n, p, 0),
        Instr::Band(p) => and_c(mem, c, n, bit_of(mem, c, p)),
        Instr::Bor(p) => or_c(mem, c, n, bit_of(mem, c, p)),
        Instr::Bxor(p) => xor_c(mem, c, n, bit_of(mem, c, p)),
        Instr::LdbFromC(p) => set_place(mem, c, n, p, registers::carry(mem)),
        Instr::LdbToC(p) => bits::set_carry(mem, c, n, bit_of(mem, c, p)),
        _ => control::jump_to(c, n),
    }
}
