// The numbers of an input: the decisions on received points, one for each, or decoded bits, eight for each byte, the highest first.
ghost use Rattle.std.specs.Prelude.{◌≡◌, [], ◌∷◌, ◌++◌, ◌+◌, ◌*◌, ◌≤◌, length, take, drop};
ghost use Rattle.convolutional_code.specs.Bits.{bits_of};
ghost use Rattle.dvbs_lock.specs.Numbers.{read_size, NumbersAt, ReadsNumbers};

use common::put;
use program_io::{Input, System};
use received_symbols::point_pairs;

// The input after its next bytes, how many came, and how many numbers they make.
#[derive(Clone, Copy)]
pub struct NumbersRead {
    pub input: Input,
    pub length: usize,
    pub count: usize,
}

// How many bytes are read at once: those of 13,056 points, eight windows of a search, or of as many bits.
pub fn read_size(bits: bool) -> usize
    ensures { result ≡ read_size bits }
{
    if bits {
        return 1632;
    }
    104448
}

// Writes the bits of a byte at a place.
fn put_byte(byte: u8, at: usize, output: &mut [u8])
    requires { at + 8 ≤ length output.old }
    ensures { output.new ≡ take at output.old ++ bits_of (byte ∷ []) ++ drop (at + 8) output.old }
{
    let bits = [
        byte / 128 % 2,
        byte / 64 % 2,
        byte / 32 % 2,
        byte / 16 % 2,
        byte / 8 % 2,
        byte / 4 % 2,
        byte / 2 % 2,
        byte % 2,
    ];
    put(&bits, at, output);
}

// Writes the bits of bytes.
fn put_bits(bytes: &[u8], output: &mut [u8])
    requires { 8 * length bytes.now ≤ length output.old }
    ensures { take (8 * length bytes.now) output.new ≡ bits_of bytes.now }
{
    for (k, byte) in bytes.iter().enumerate() {
        put_byte(*byte, 8 * k, output);
    }
}

// Writes the numbers of bytes. Gives how many they are.
fn put_numbers(bits: bool, bytes: &[u8], output: &mut [u8]) -> usize
    requires { (length bytes.now ≤ read_size bits) × (length output.old ≡ 13056) }
    ensures { NumbersAt bits bytes.now result output.new }
{
    if bits {
        put_bits(bytes, output);
        return 8 * bytes.len();
    }
    let count = bytes.len() / 8;
    point_pairs(bytes, count, output);
    count
}

// Reads the next bytes, as many as the buffer has unless the input ends before, and writes their numbers.
pub fn read_numbers(
    system: &mut System,
    bits: bool,
    input: Input,
    buffer: &mut [u8],
    output: &mut [u8],
) -> NumbersRead
    requires { (length buffer.old ≡ read_size bits) × (length output.old ≡ 13056) }
    ensures { ReadsNumbers bits input result output.new }
{
    let filled = input.fill(system, b"standard input", buffer);
    let n = filled.length;
    let next = filled.input;
    let count = put_numbers(bits, &buffer[..n], output);
    NumbersRead {
        input: next,
        length: n,
        count,
    }
}
