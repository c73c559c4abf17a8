// Soft decisions: the bytes of received points, two f32 each, I and then Q, the lowest byte first: the complex numbers of GNU Radio's files. A point whose
// numbers are both NaN is a lost symbol.
ghost use Rattle.std.specs.Prelude.{◌≡◌, true, ℕ, ◌+◌, ◌*◌, ◌/◌, ◌<◌, ◌≤◌, length, get_or};
ghost use Rattle.std.specs.Float.{nan, binary32};
ghost use Rattle.std.specs.Float.Ieee.{of_bits, nan_bits};
ghost use Rattle.branch_metrics.specs.SoftPairs.{symbol_pair};
ghost use Rattle.reader_stream.specs.Stream.{ReaderReady};
ghost use Rattle.received_symbols.specs.Received.{word_at, number, point_at};
ghost use Rattle.received_symbols.specs.Pass.{TakesBytes};

use crate::{SymbolPass, SymbolsTaken};
use branch_metrics::soft_decision::soft_pairs;
use common::put;
use reader_stream::ReaderStream;

// The number whose lowest byte is at a place.
fn word_at(bytes: &[u8], at: usize) -> u32
    requires { at + 4 ≤ length bytes.now }
    ensures { result ≡ word_at bytes.now at }
{
    u32::from_le_bytes([bytes[at], bytes[at + 1], bytes[at + 2], bytes[at + 3]])
}

// Whether a pattern is that of a NaN: without the sign, it is above that of the infinity.
fn is_nan_pattern(bits: u32) -> bool
    ensures { result ≡ nan_bits binary32 bits }
{
    bits % 2147483648 > 2139095040
}

// The f32 of a pattern. `from_bits` is not defined for that of a NaN, so a NaN is made.
fn number_of(bits: u32) -> f32
    ensures { result ≡ of_bits binary32 bits }
{
    if is_nan_pattern(bits) {
        return 0.0 / 0.0;
    }
    f32::from_bits(bits)
}

// Reads one number of each of so many points, I or Q: that of the first point has its lowest byte at a place.
fn read_numbers(bytes: &[u8], at: usize, count: usize, numbers: &mut [f32])
    requires { (at + 8 * count ≤ length bytes.now + 4) × (count ≤ length numbers.old) }
    ensures { (t : ℕ) → t < count → get_or numbers.new t nan ≡ number bytes.now (at + 8 * t) }
{
    for k in 0..count {
        numbers[k] = number_of(word_at(bytes, at + 8 * k));
    }
}

// Writes the decisions on at most 256 points, from one on, by two lists of their numbers. No symbol is marked as lost: the decisions on two NaNs are the same.
fn some_pairs(bytes: &[u8], first: usize, count: usize, output: &mut [u8])
    requires { (count ≤ 256) × (8 * (first + count) ≤ length bytes.now) × (count ≤ length output.old) }
    ensures { (t : ℕ) → t < count → get_or output.new t 0 ≡ symbol_pair (point_at bytes.now (first + t)) }
{
    let mut is = [0.0f32; 256];
    read_numbers(bytes, 8 * first, count, &mut is);
    let mut qs = [0.0f32; 256];
    read_numbers(bytes, 8 * first + 4, count, &mut qs);
    let lost = [0u8; 256];
    soft_pairs(&is[..count], &qs[..count], &lost[..count], output);
}

// Writes the decisions on so many points, one number for each.
pub fn point_pairs(bytes: &[u8], count: usize, output: &mut [u8])
    requires { (8 * count ≤ length bytes.now) × (count ≤ length output.old) }
    ensures { (t : ℕ) → t < count → get_or output.new t 0 ≡ symbol_pair (point_at bytes.now t) }
{
    let mut k: usize = 0;
    // A `while`: each step takes as many points as its lists hold, or those that are left.
    while k < count {
        let some = (count - k).min(256);
        let end = k + some;
        some_pairs(bytes, k, some, &mut output[k..end]);
        k = end;
    }
}

// Takes the whole points of some bytes, and holds the bytes that are left.
pub fn take_points(
    stream: ReaderStream,
    bytes: &[u8],
    pairs: &mut [u8],
    bits: &mut [u8],
    output: &mut [u8],
) -> SymbolsTaken
    requires { (ReaderReady stream) × (length bytes.now / 8 ≤ length pairs.old) × (1632 ≤ length bits.old) × (length bytes.now / 8 + 1632 ≤ 4 * length output.old) }
    ensures { TakesBytes true stream bytes.now output.old result output.new }
{
    let points = bytes.len() / 8;
    point_pairs(bytes, points, pairs);
    let fed = stream.feed(&pairs[..points], bits, output);
    let whole = 8 * points;
    let mut tail = [0u8; 8];
    put(&bytes[whole..], 0, &mut tail);
    SymbolsTaken {
        pass: SymbolPass {
            stream: fed.stream,
            tail,
            held: bytes.len() % 8,
        },
        taken: bytes.len(),
        stopped: false,
        count: fed.count,
    }
}
