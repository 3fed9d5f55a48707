// The rows of Tables 5-15 to 5-17, a function for each table; what a table does not print goes on to the next. `tag_of` counts the rows in the
// printed order.
ghost use Rattle.std.specs.Prelude.{◌≡◌, ◌≤◌, length};
ghost use denote.Enum.Declared.{tag_of};
ghost use Rattle.chip.specs.State.{at, rom0502};
ghost use Rattle.codes.specs.contracts.Instr.{the_type};
ghost use Rattle.fetch.specs.Fetch.{size_of, code_at};
ghost use Rattle.forms.specs.Operations.{effect_of};

use alu::logic;
use chip::{Cpu, DataMemory, modes};
use codes::Instr;
use effects::operands::{direct_in, hl_in, pair_in, pointed_in, read8_in, reg_in};
use effects::{Effect, NO_SKIP, SKIP_NEXT};
use fetch::Origin;
use forms::{at_hl, compare_a, compare_ea, jump_page, load_code};

// Table 5-15, CPU control.
pub fn cpu_control(
    i: Instr,
    origin: Origin,
    code: &[u8],
    mem: &DataMemory,
    c: Cpu,
    n: u16,
) -> Effect
    requires { rom0502 ≤ size_of origin (length code.now) }
    ensures { result ≡ effect_of (λ p. (code_at origin code.now p).b0) i (at mem.now c) n }
{
    match i {
        Instr::Undefined => control::jump_to(c, n),
        Instr::Scf => bits::set_carry(mem, c, n, 1),
        Instr::Rcf => bits::set_carry(mem, c, n, 0),
        Instr::Ccf => bits::set_carry(mem, c, n, 1 - registers::carry(mem)),
        Instr::Ei => control::set_ime(mem, c, n, 1),
        Instr::Di => control::set_ime(mem, c, n, 0),
        Instr::Idle => control::set_mode(c, n, modes::IDLE),
        Instr::Stop => control::set_mode(c, n, modes::STOPPED),
        Instr::Nop => control::jump_to(c, n),
        Instr::Smb(v) => control::set_smb(c, n, v),
        Instr::Srb(v) => control::set_srb(c, n, v),
        Instr::Ref(_) => control::jump_to(c, n),
        _ => program_control(i, origin, code, mem, c, n),
    }
}

// Table 5-16, program control.
fn program_control(
    i: Instr,
    origin: Origin,
    code: &[u8],
    mem: &DataMemory,
    c: Cpu,
    n: u16,
) -> Effect
    requires rom0502_bound { rom0502 ≤ size_of origin (length code.now) }
    requires bound { 12 ≤ tag_of the_type i }
    ensures { result ≡ effect_of (λ p. (code_at origin code.now p).b0) i (at mem.now c) n }
{
    match i {
        Instr::CpseRIm(r, v) => arithmetic::skip_if(c, n, reg_in(mem, c, r) == v),
        Instr::CpseHlIm(v) => arithmetic::skip_if(c, n, at_hl(mem, c) == v),
        Instr::CpseAR(r) => compare_a(mem, c, n, reg_in(mem, c, r)),
        Instr::CpseAHl => compare_a(mem, c, n, at_hl(mem, c)),
        Instr::CpseEaHl => compare_ea(mem, c, n, read8_in(mem, c, hl_in(mem, c))),
        Instr::CpseEaRr(r) => compare_ea(mem, c, n, pair_in(mem, c, r)),
        Instr::Jp(a) => control::jump_to(c, a),
        Instr::Jps(a) => control::jump_to(c, a),
        Instr::JrForward(a) => control::jump_to(c, control::forward(c.pc, a)),
        Instr::JrBack(a) => control::jump_to(c, control::back(c.pc, a)),
        Instr::JrWx => jump_page(mem, c, n, 4),
        Instr::JrEa => jump_page(mem, c, n, 0),
        Instr::Call(a) => control::call_to(mem, c, n, a),
        Instr::Calls(a) => control::call_to(mem, c, n % 2048, a),
        Instr::Ret => control::return_from(mem, c, NO_SKIP),
        Instr::Iret => control::interrupt_return(mem, c),
        Instr::Sret => control::return_from(mem, c, SKIP_NEXT),
        _ => data_transfer(i, origin, code, mem, c, n),
    }
}

// Table 5-17, data transfer.
fn data_transfer(i: Instr, origin: Origin, code: &[u8], mem: &DataMemory, c: Cpu, n: u16) -> Effect
    requires rom0502_bound { rom0502 ≤ size_of origin (length code.now) }
    requires bound { 29 ≤ tag_of the_type i }
    ensures { result ≡ effect_of (λ p. (code_at origin code.now p).b0) i (at mem.now c) n }
{
    match i {
        Instr::XchADa(a) => transfer::exchange_a(mem, c, n, direct_in(mem, c, a)),
        Instr::XchARa(r) => transfer::exchange_reg(mem, c, n, r),
        Instr::XchARra(i) => transfer::exchange_a(mem, c, n, pointed_in(mem, c, i)),
        Instr::XchEaDa(a) => transfer::exchange_ea(mem, c, n, direct_in(mem, c, a)),
        Instr::XchEaRrb(r) => transfer::exchange_pair(mem, c, n, r),
        Instr::XchEaHl => transfer::exchange_ea(mem, c, n, hl_in(mem, c)),
        Instr::Xchi => postincrement::exchange_step(mem, c, n, hl_in(mem, c), 15, 1),
        Instr::Xchd => postincrement::exchange_step(mem, c, n, hl_in(mem, c), 0, 15),
        Instr::LdAIm(v) => transfer::load_im(mem, c, n, v),
        Instr::LdARra(i) => transfer::load_a(mem, c, n, pointed_in(mem, c, i)),
        Instr::LdADa(a) => transfer::load_a(mem, c, n, direct_in(mem, c, a)),
        Instr::LdARa(r) => transfer::set_reg(mem, c, n, 0, reg_in(mem, c, r)),
        Instr::LdRaIm(r, v) => transfer::set_reg(mem, c, n, r, v),
        Instr::LdRrImm(r, v) => transfer::load_imm(mem, c, n, r, v),
        Instr::LdDaA(a) => transfer::store_a(mem, c, n, direct_in(mem, c, a)),
        Instr::LdRaA(r) => transfer::set_reg(mem, c, n, r, reg_in(mem, c, 0)),
        Instr::LdEaHl => transfer::load_ea(mem, c, n, hl_in(mem, c)),
        Instr::LdEaDa(a) => transfer::load_ea(mem, c, n, direct_in(mem, c, a)),
        Instr::LdEaRrb(r) => transfer::set_pair(mem, c, n, 0, pair_in(mem, c, r)),
        Instr::LdHlA => transfer::store_a(mem, c, n, hl_in(mem, c)),
        Instr::LdDaEa(a) => transfer::store_ea(mem, c, n, direct_in(mem, c, a)),
        Instr::LdRrbEa(r) => transfer::set_pair(mem, c, n, r, pair_in(mem, c, 0)),
        Instr::LdHlEa => transfer::store_ea(mem, c, n, hl_in(mem, c)),
        Instr::Ldi => postincrement::load_step(mem, c, n, hl_in(mem, c), 15, 1),
        Instr::Ldd => postincrement::load_step(mem, c, n, hl_in(mem, c), 0, 15),
        Instr::LdcWx => load_code(origin, code, mem, c, n, 4),
        Instr::LdcEa => load_code(origin, code, mem, c, n, 0),
        Instr::Rrc => transfer::rotate_a(mem, c, n),
        Instr::PushRr(r) => stack::push_pair(mem, c, n, r),
        Instr::PushSb => stack::push_sb(mem, c, n),
        Instr::PopRr(r) => stack::pop_pair(mem, c, n, r),
        Instr::PopSb => stack::pop_sb(mem, c, n),
        _ => logic(i, mem, c, n),
    }
}
