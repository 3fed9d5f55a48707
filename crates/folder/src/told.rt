// What a program tells in words, a line each, on standard error. Each line starts with the name of the program, or of the file that it is about.
use playback::Ending;
use std::io::{Error, Print};
use trace::LONGEST;

// What can't be told is lost, since there is nowhere else to tell it.
fn begin(err: &impl Print, program: &[u8], words: &[u8]) {
    let _ = err.write_all(program);
    let _ = err.write_all(b": ");
    let _ = err.write_all(words);
}

pub fn line(err: &impl Print, program: &[u8], words: &[u8]) {
    begin(err, program, words);
    let _ = err.write_all(b"\n");
}

// A line that ends with a place.
fn line_at(err: &impl Print, program: &[u8], words: &[u8], place: u32) {
    begin(err, program, words);
    let _ = println!(err; "{place}");
}

// Why the file of this name could not be opened, in the system's words. The number that std writes behind them is left out.
pub(crate) fn unopened(rt: &impl Alloc, err: &impl Print, name: &[u8], error: &Error) {
    match format!(in rt.alloc(); "{error}") {
        Ok(said) => match said.as_str().split_once(" (os error ") {
            Some((words, _)) => line(err, name, words.as_bytes()),
            None => line(err, name, said.as_str().as_bytes()),
        },
        Err(_) => {
            begin(err, name, b"");
            let _ = println!(err; "{error}");
        }
    }
}

pub fn budget(err: &impl Print, program: &[u8], said: Option<u32>) {
    if said.is_none() {
        line(
            err,
            program,
            b"standard input says no budget from 0 to 4294967295; it counts as 0",
        );
    }
}

pub fn unwritten(err: &impl Print, program: &[u8]) {
    line(err, program, b"the output could not be written whole");
}

// A trace that is too long has its own place, at which no record can start.
fn trace(err: &impl Print, program: &[u8], place: u32) {
    if place == LONGEST as u32 {
        line(
            err,
            program,
            b"trace.bin is refused (6): it is longer than 65536 bytes",
        );
    } else {
        line_at(
            err,
            program,
            b"trace.bin is refused (6): the record is malformed that starts at byte ",
            place,
        );
    }
}

// Why a file was refused, or a run stopped. 11 and 12 have no place of their own: the PC is told.
pub fn ending(err: &impl Print, program: &[u8], e: Ending) {
    let a = e.answer;
    let number = a.number;
    match number {
        numbers::ROM => line(
            err,
            program,
            b"rom.bin is refused (1): it is not there, or has neither 2048 nor 4096 bytes",
        ),
        numbers::TRACE => trace(err, program, a.address),
        numbers::CURSOR => line_at(
            err,
            program,
            b"trace.bin is refused (7): no record starts at byte ",
            a.address,
        ),
        numbers::CODE => line_at(
            err,
            program,
            b"the run stopped (9): the code is undefined at address ",
            a.address,
        ),
        numbers::REFERENCE => line_at(
            err,
            program,
            b"the run stopped (10): REF names what it may not at address ",
            a.address,
        ),
        numbers::REGISTER => line_at(
            err,
            program,
            b"the run stopped (17): the code is undefined for its register alone at address ",
            a.address,
        ),
        numbers::BANK => line_at(
            err,
            program,
            b"the run stopped (18): SMB or SRB names a number that it does not take at address ",
            a.address,
        ),
        numbers::CLOCK => line_at(
            err,
            program,
            b"the run stopped (11): the clock would pass 4294967295; the PC is ",
            e.pc as u32,
        ),
        numbers::FULL => line_at(
            err,
            program,
            b"the run stopped (12): the log is full; the PC is ",
            e.pc as u32,
        ),
        _ => {}
    }
}
