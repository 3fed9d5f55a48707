// Runs rom.bin from fresh on trace.bin, with the budget on the first line of standard input, and prints the litres of the farms that begin at the marks on its
// further lines. What is wrong with the files, the budget or the marks, and why a run stopped, is told in words on standard error.
#![tactic(auto)]

mod told;

use billing::bill;
use chip::Machine;
use folder::read_file;
use slips::LONGEST_TEXT;
use text::input::read_full;

// Each buffer has a byte more than the longest that is taken, so that what is longer is refused and not cut short.
fn main(rt: HostRuntime) {
    let err = rt.stderr();
    let mut rom = [0u8; Machine::ROM_0504 + 1];
    let mut trace = [0u8; trace::LONGEST + 1];
    let mut order = [0u8; marks::LONGEST + 1];
    let mut text = [0u8; LONGEST_TEXT];
    let r = read_file(&rt, &err, b"rom.bin", &mut rom);
    let t = read_file(&rt, &err, b"trace.bin", &mut trace);
    let o = read_full(&mut rt.reader(), &mut order);
    let b = bill(&rom[..r], &trace[..t], &order[..o], &mut text);
    let printed = b.printed;
    let n = printed.length;
    if rt.write_all(&text[..n]).is_err() {
        folder::told::unwritten(&err, b"slip");
    }
    told::bill(&err, b, o);
}
