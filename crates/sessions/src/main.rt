// Plays the packed sessions on standard input (kind "SAM47SES", see `text::packed`), each as the program `replay` plays the like files and input.
// A session is the lengths of rom.bin, of trace.bin and of the input, and their bytes. Its number, from 0, is printed before it.
#![tactic(auto)]

use chip::Machine;
use playback::LONGEST_TEXT;
use std::io::Read;
use text::input::read_full;
use text::{budget, packed};
use trace::LONGEST;
use words::long_at;

const KIND: &[u8; 8] = b"SAM47SES";

// The longest input that a session may have.
const LONGEST_INPUT: usize = 65537;

// What can't be printed is lost, and nothing says so.
fn print_number(rt: &impl Print, k: u32) {
    let _ = println!(rt; "session {k}");
}

// Plays a session and prints it.
fn print_session(rt: &impl Print, rom: &[u8], trace: &[u8], input: &[u8]) {
    let said = budget::said(budget::absorb(budget::start(), input));
    let mut text = [0u8; LONGEST_TEXT];
    let printed = playback::session(rom, trace, budget::steps(said), &mut text);
    let n = printed.length;
    let _ = rt.write_all(&text[..n]);
}

// Plays the next session, whose number is k; false if it is not there whole.
fn play<R: Read>(rt: &impl Print, from: &mut R, k: u32) -> bool {
    let mut head = [0u8; 12];
    let mut rom = [0u8; Machine::ROM_0504 + 1];
    let mut trace = [0u8; LONGEST + 1];
    let mut input = [0u8; LONGEST_INPUT];
    read_full(from, &mut head);
    let r = packed::part(from, long_at(&head, 0) as usize, &mut rom);
    let t = packed::part(from, long_at(&head, 4) as usize, &mut trace);
    let n = packed::part(from, long_at(&head, 8) as usize, &mut input);
    if !packed::is_closed(from) {
        return false;
    }
    print_number(rt, k);
    print_session(rt, &rom[..r], &trace[..t], &input[..n]);
    true
}

fn main(rt: HostRuntime) {
    let mut input = rt.reader();
    let sessions = packed::open(&mut input, KIND).unwrap_or(0);
    let mut played = 0;
    for k in 0..sessions {
        if !play(&rt, &mut input, k) {
            break;
        }
        played = k + 1;
    }
    let _ = println!(rt; "{played} of {sessions} sessions");
}
