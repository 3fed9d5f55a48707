// What the programs share that play a round from the folder they are run in: its files, and what they tell in words.
#![tactic(auto)]

pub mod told; // told.rt: lines on standard error

ghost use Rattle.std.specs.Prelude.{◌≡◌};
ghost use Rattle.io.specs.Counts.{IsPrefixLen};

use std::fs;
use std::io::{ErrorKind, Print};
use std::rt::Files;
use text::input::read_full;

// Reads the named file; one that can't be read counts as empty. Why is told to `err`, unless it is missing. The system's files have names of text here.
pub fn read_file<R: Files + Alloc>(rt: &R, err: &impl Print, name: &[u8], bytes: &mut [u8]) -> usize
    ensures { IsPrefixLen result bytes.new }
{
    let Ok(path) = str::from_utf8(name) else {
        told::line(err, name, b"the name is no text");
        return io::count(0, bytes);
    };
    match fs::open(rt, path) {
        Ok(mut file) => read_full(&mut file, bytes),
        Err(error) => {
            if error.kind() != ErrorKind::NotFound {
                told::unopened(rt, err, name, &error);
            }
            io::count(0, bytes)
        }
    }
}
