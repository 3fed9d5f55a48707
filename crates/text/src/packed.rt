// Packed files, as on standard input. Numbers have four bytes, low byte first.
//
// A file starts with the eight bytes of its kind, "SAM47" and three letters, the version 1, and how many cases there are.
// A case is a head of numbers, lengths among them, and parts of that many bytes, as the program that reads it says; the four bytes "DONE" close
// it. A case whose parts are not there whole, or are longer than the program has room for, is not closed where it should be.
ghost use Rattle.io.specs.Counts.{IsPrefixLen};

use crate::input::read_full;
use std::io::Read;
use words::long_at;

const VERSION: u32 = 1;

fn opened(head: &[u8; 16], kind: &[u8; 8]) -> Option<u32> {
    let known = head.starts_with(kind) && long_at(head, 8) == VERSION;
    known.then_some(long_at(head, 12))
}

// Reads a file's start: how many cases there are, if the file is of this kind and version.
pub fn open<R: Read>(from: &mut R, kind: &[u8; 8]) -> Option<u32> {
    let mut head = [0u8; 16];
    read_full(from, &mut head);
    opened(&head, kind)
}

// Reads a part of n bytes to the start of `bytes`, and answers how many it read: none if there is no room for n.
pub fn part<R: Read>(from: &mut R, n: usize, bytes: &mut [u8]) -> usize
    ensures { IsPrefixLen result bytes.new }
{
    if bytes.len() < n {
        return io::count(0, bytes);
    }
    read_full(from, &mut bytes[..n])
}

// Reads the four bytes that close a case: whether they are there.
pub fn is_closed<R: Read>(from: &mut R) -> bool {
    let mut mark = [0u8; 4];
    read_full(from, &mut mark);
    mark == *b"DONE"
}
