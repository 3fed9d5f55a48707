// How a trainer's window uses `trainer::step`, as a program. The window holds a machine record and a log; each press of its key lends them for one
// step, and finds them changed.
//
// The ROM is the README's example: it makes port 4 an output and counts on it from 5 to 15. After a press a line is printed, "number address clock pc A
// hold", in decimal: the number and the address that the step answers, then the clock, the PC, the accumulator and what remains of the hold of the
// record as it is found. A fresh record is held for 2,048 presses, of which the first and the last are printed; then the lesson begins. Its last press
// answers 9 (an undefined code), and one on a record that is no state answers 4; neither changes the record.
#![tactic(auto)]

ghost use Rattle.trainer.specs.Trainer.{Trains};

use chip::Machine;
use chip::reset::HELD_CYCLES;
use trainer::Trained;

// The hold's, and of the lesson at most 60. It takes 38; a ROM that goes on for ever is left here.
const PRESSES: u32 = HELD_CYCLES as u32 + 60;

// The number of register A in its bank.
const A: u8 = 0;

// One press: the record is lent, and handed on as it is found, with the answer. The log is written from `end` on. Its contract is that of
// `trainer::step_by_value`.
fn pressed(rom: &[u8], m: Machine, trace: &[u8], log: &mut [u8], end: usize) -> Trained
    ensures { Trains rom.now m trace.now log.old end result.answer result.machine log.new }
{
    let mut record = m;
    let answer = trainer::step(rom, &mut record, trace, log, end);
    Trained {
        machine: record,
        answer,
    }
}

fn show(rt: &impl Print, r: Trained) {
    let a = r.answer;
    let m = r.machine;
    let mem = m.mem;
    let c = m.cpu;
    let accumulator = registers::register(&mem, c.srb, A);
    decimals::six(
        rt,
        [
            a.number,
            a.address,
            c.clock,
            c.pc as u32,
            accumulator as u32,
            c.timing.hold as u32,
        ],
    );
}

// Whether a press that found so much left of the hold is printed. In the hold nothing changes but the clock and the timers: its first press shows that
// the head is held, its last that it no longer is, and the 2,046 lines between them would only hide the lesson. A press that makes no step is printed
// always.
fn shown(hold: u16, number: u32) -> bool {
    if number != 0 {
        return true;
    }
    match hold {
        0 | 1 => true,
        _ => hold == HELD_CYCLES,
    }
}

// Presses until a step is not made, and answers the record as it then is. Each press writes the log from where the one before it ended. The trace is
// empty: no pin changes.
fn played(rt: &impl Print, rom: &[u8], m: Machine, log: &mut [u8]) -> Machine {
    let mut record = m;
    let mut end: usize = 0;
    for _ in 0..PRESSES {
        let hold = record.cpu.timing.hold;
        let r = pressed(rom, record, b"", log, end);
        if shown(hold, r.answer.number) {
            show(rt, r);
        }
        record = r.machine;
        end = r.answer.log_end;
        if r.answer.number != 0 {
            return record;
        }
    }
    record
}

// One press on the record with SRB 4, which no state has: it is refused at 643, the place of SRB in the state.
fn refused(rt: &impl Print, rom: &[u8], m: Machine, log: &mut [u8]) {
    let mem = m.mem;
    let mut cpu = m.cpu;
    cpu.srb = 4;
    let r = pressed(rom, Machine { mem, cpu }, b"", log, 0);
    show(rt, r);
}

fn lesson() -> [u8; Machine::ROM_0502] {
    let mut rom = [0u8; Machine::ROM_0502];
    // The reset vector: PC 0100H.
    rom[0] = 0x01;
    // BITS EMB; SMB 15
    rom[256] = 0xFF;
    rom[257] = 0x90;
    rom[258] = 0xDD;
    rom[259] = 0x4F;
    // LD EA,#0FH; LD PMG2,EA
    rom[260] = 0x81;
    rom[261] = 0x0F;
    rom[262] = 0xCD;
    rom[263] = 0xEA;
    // LD A,#5
    rom[264] = 0xB5;
    // LD P4,A; INCS A; JR back to LD P4,A
    rom[265] = 0x89;
    rom[266] = 0xF4;
    rom[267] = 0x58;
    rom[268] = 0x03;
    rom
}

fn main(rt: HostRuntime) {
    let rom = lesson();
    let mut log = [0u8; 600];
    let record = played(&rt, &rom, Machine::fresh(&rom), &mut log);
    refused(&rt, &rom, record, &mut log);
}
