// What a call answers that writes a form to an output buffer: how many bytes it wrote from the buffer's start on, or why it wrote none.
#![tactic(auto)]

ghost use Rattle.std.specs.Prelude.{◌≡◌};
ghost use Rattle.written.specs.Written.{refusal, wrote};

use numbers::DONE;

#[repr(C)]
#[derive(Clone, Copy)]
pub struct Written {
    pub number: u32, // 0, or the refusal's
    pub address: u32, // a refusal's place; 0 where it has none
    pub length: u64, // how many bytes were written; 0 if refused
}

// A refusal writes nothing.
pub fn refused(number: u32, address: u32) -> Written
    ensures { result ≡ refusal number address }
{
    Written {
        number: number,
        address: address,
        length: 0,
    }
}

// A form of so many bytes stands at the buffer's start.
pub fn accepted(length: usize) -> Written
    ensures { result ≡ wrote length }
{
    Written {
        number: DONE,
        address: 0,
        length: length as u64,
    }
}
