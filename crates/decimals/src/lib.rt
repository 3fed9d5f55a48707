// Lines of numbers: decimals, a space between two, a line end after the last.
#![tactic(auto)]

ghost use Rattle.std.specs.Prelude.{◌≡◌, [], ◌∷◌, ◌++◌, ◌+◌, ◌*◌, ◌≤◌, length, take};
ghost use Rattle.io.specs.Counts.{IsPrefixLen};
ghost use Rattle.decimals.specs.Lines.{decimal_of, line_of};

use std::io::Print;

const SPACE: u8 = 32;

const LINE_END: u8 = 10;

// The most bytes that a number takes with the byte after it: ten digits and one.
pub const NUMBER: usize = 11;

// Writes a number and the byte after it to the line from `at` on, and answers where they end.
fn put(line: &mut [u8], at: usize, n: u32, after: u8) -> usize
    requires { at + 11 ≤ length line.old }
    ensures { (take result line.new ≡ take at line.old ++ (decimal_of n ++ (after ∷ []))) × (result ≤ at + 11) }
{
    let mut digits = [0u8; 20];
    let k = io::decimal(n as u64, &mut digits);
    let end = at + k;
    line[at..end].copy_from_slice(&digits[..k]);
    line[end] = after;
    end + 1
}

// Writes the numbers as a line from `at` on, and answers where it ends.
pub fn line(out: &mut [u8], at: usize, numbers: &[u32]) -> usize
    requires { at + 11 * length numbers.now ≤ length out.old }
    ensures text { take result out.new ≡ take at out.old ++ line_of numbers.now }
    ensures end { result ≤ at + 11 * length numbers.now }
    ensures prefix_len { IsPrefixLen result out.new }
{
    let Some((last, before)) = numbers.split_last() else {
        return at;
    };
    let mut end = at;
    for &number in before {
        end = put(out, end, number, SPACE);
    }
    put(out, end, *last, LINE_END)
}

// Prints a line of six numbers. One that can't be written is lost, and nothing says so.
pub fn six(rt: &impl Print, numbers: [u32; 6]) {
    let mut out = io::buffer();
    let n = line(&mut out, 0, &numbers);
    let _ = rt.write_all(&out[..n]);
}
