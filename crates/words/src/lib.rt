// Numbers of two and of four bytes, low byte first.
#![tactic(auto)]

ghost use Rattle.std.specs.Prelude.{◌≡◌, ◌+◌, ◌≤◌, length};
ghost use Rattle.std.proofs.lemmas.List.Edits.{sets};
ghost use Rattle.words.specs.Words.{word_of, long_of, word_at, long_at, bytes_of};

pub fn word(lo: u8, hi: u8) -> u16
    ensures { result ≡ word_of lo hi }
{
    (lo as u16) + 256 * (hi as u16)
}

pub fn long(lo: u16, hi: u16) -> u32
    ensures { result ≡ long_of lo hi }
{
    (lo as u32) + 65536 * (hi as u32)
}

pub fn word_at(s: &[u8], at: usize) -> u16
    requires { at + 2 ≤ length s.now }
    ensures { result ≡ word_at s.now at }
{
    word(s[at], s[at + 1])
}

pub fn long_at(s: &[u8], at: usize) -> u32
    requires { at + 4 ≤ length s.now }
    ensures { result ≡ long_at s.now at }
{
    long(word_at(s, at), word_at(s, at + 2))
}

pub fn put_word(s: &mut [u8], at: usize, x: u16)
    requires { at + 2 ≤ length s.old }
    ensures { s.new ≡ sets s.old at (bytes_of 2 x) }
{
    s[at] = (x % 256) as u8;
    s[at + 1] = (x / 256 % 256) as u8;
}

pub fn put_long(s: &mut [u8], at: usize, x: u32)
    requires { at + 4 ≤ length s.old }
    ensures { s.new ≡ sets s.old at (bytes_of 4 x) }
{
    s[at] = (x % 256) as u8;
    s[at + 1] = (x / 256 % 256) as u8;
    s[at + 2] = (x / 256 / 256 % 256) as u8;
    s[at + 3] = (x / 256 / 256 / 256 % 256) as u8;
}
