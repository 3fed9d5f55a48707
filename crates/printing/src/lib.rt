// The text of a session, from the bytes of its log and the numbers that it ended with: what the program prints.
#![tactic(auto)]

ghost use Rattle.std.specs.Prelude.{◌≡◌, ◌++◌, ◌+◌, ◌*◌, ◌≤◌, length, take, drop};
ghost use Rattle.io.specs.Counts.{IsPrefixLen};
ghost use Rattle.printing.specs.Printed.{record_line, log_lines, session_lines};

// The bytes of a record in a log: the clock, the port and its nibble.
pub const RECORD: usize = 6;

// Writes the line of a record to the text from `to` on, and answers where it ends.
fn put_record(bytes: &[u8], out: &mut [u8], to: usize) -> usize
    requires bytes_len { length bytes.now ≡ 6 }
    requires to_in_bounds { to + 33 ≤ length out.old }
    ensures { (take result out.new ≡ take to out.old ++ record_line bytes.now) × (result ≤ to + 33) }
{
    let clock = words::long_at(bytes, 0);
    let port = bytes[4];
    let nibble = bytes[5];
    decimals::line(out, to, &[clock, port as u32, nibble as u32])
}

// Writes the lines of a log to the start of the text, at most 33 bytes for six of the log, and answers where they end.
fn put_log(log: &[u8], out: &mut [u8]) -> usize
    requires { 11 * length log.now ≤ 2 * length out.old }
    ensures { (take result out.new ≡ log_lines log.now) × (2 * result ≤ 11 * length log.now) }
{
    let mut to = 0;
    for record in log.chunks_exact(RECORD) {
        to = put_record(record, out, to);
    }
    to
}

// How many bytes of the log were written: its end, which never lies past the buffer.
pub fn written(end: usize, log: &[u8]) -> usize
    ensures { (take result log.now ≡ take end log.now) × IsPrefixLen result log.now }
{
    end.min(log.len())
}

// Writes the lines of the log up to its end, and the last line, to the start of the text, and answers where they end.
pub fn put_lines(
    log: &[u8],
    end: usize,
    number: u32,
    steps: u32,
    address: u32,
    clock: u32,
    pc: u16,
    out: &mut [u8],
) -> usize
    requires { 11 * length log.now + 110 ≤ 2 * length out.old }
    ensures { (take result out.new ≡ session_lines log.now end number steps address clock pc) × IsPrefixLen result out.new }
{
    let n = written(end, log);
    let to = put_log(&log[..n], out);
    decimals::line(out, to, &[number, steps, address, clock, pc as u32])
}
