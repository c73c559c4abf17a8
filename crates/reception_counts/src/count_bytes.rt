// Numbers as bytes and back, and the counts of a receiver so. The lowest byte comes first.
// Inner: its functions may require what the crates above have tested. docs/ARCHITECTURE.md names the public surface.
ghost use Rattle.std.specs.Prelude.{◌≡◌, ◌++◌, ◌+◌, ◌≤◌, length, take, drop};
ghost use Rattle.common.specs.Lists.{placed};
ghost use Rattle.reception_counts.specs.Bytes.{to_bytes, from_bytes, count_bytes, counts_at};

use crate::Counts;
use common::byte_at;

// Writes a number in eight bytes, from a place on.
pub fn put_number(number: u64, at: usize, output: &mut [u8])
    requires { at + 8 ≤ length output.old }
    ensures { output.new ≡ placed output.old at (to_bytes 8 number) }
{
    for k in 0..8 {
        output[at + k] = byte_at(number, k);
    }
}

// Writes the eight counts, each in eight bytes.
pub fn put_counts(counts: Counts, output: &mut [u8])
    requires { 64 ≤ length output.old }
    ensures { output.new ≡ count_bytes counts ++ drop 64 output.old }
{
    let numbers = [
        counts.taken,
        counts.filling,
        counts.delivered,
        counts.lost,
        counts.waiting,
        counts.outofstep,
        counts.changed,
        counts.bits,
    ];
    for i in 0..8 {
        put_number(numbers[i], 8 * i, output);
    }
}

// The number in eight bytes, from a place on.
pub fn number_at(bytes: &[u8], at: usize) -> u64
    requires { at + 8 ≤ length bytes.now }
    ensures { result ≡ from_bytes (take 8 (drop at bytes.now)) }
{
    u64::from_le_bytes(common::array_at(bytes, at))
}

// The eight counts, from a place on.
pub fn counts_at(bytes: &[u8], at: usize) -> Counts
    requires { at + 64 ≤ length bytes.now }
    ensures { result ≡ counts_at bytes.now at }
{
    let taken = number_at(bytes, at);
    let filling = number_at(bytes, at + 8);
    let delivered = number_at(bytes, at + 16);
    let lost = number_at(bytes, at + 24);
    let waiting = number_at(bytes, at + 32);
    let outofstep = number_at(bytes, at + 40);
    let changed = number_at(bytes, at + 48);
    let bits = number_at(bytes, at + 56);
    Counts {
        taken,
        filling,
        delivered,
        lost,
        waiting,
        outofstep,
        changed,
        bits,
    }
}
