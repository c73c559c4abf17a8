// The state of a reader as bytes: where each field begins, the reading and writing of all of them, and whether they are in range.
// specs/State.antt has the layout as a table, and docs/STATES.md lists it with the range of each field.
ghost use Rattle.std.specs.Prelude.{◌≡◌, ◌++◌, ◌%◌, ◌<◌, length};
ghost use Rattle.reader_stream.specs.Stream.{ReaderReady};
ghost use Rattle.dvbs_reader_stream.specs.State.{power_of, in_range, cleared, state_bytes};
ghost use Rattle.dvbs_reader_stream.specs.Reading.{state_of};

use common::put;
use reader_state::{are_in_range, cleared_pairs, number_at, pairs_at};
use reader_stream::ReaderStream;
use reader_stream::symbol_runs::SymbolRuns;

// The first byte of each field, and the length of all of them.
const PAIRS: usize = 0;

const COUNT: usize = 1632;

const RATE: usize = 1634;

const MEMORY: usize = 1635;

const CARRY: usize = 1636;

const HELD: usize = 1637;

pub const STATE_LENGTH: usize = 1638;

// The bytes of so many bits are below it.
const POWERS: [u8; 8] = [1, 2, 4, 8, 16, 32, 64, 128];

fn power_of(bits: usize) -> u8
    requires { bits < 8 }
    ensures { (result ≡ power_of bits) × (0 < result) }
{
    POWERS[bits]
}

// The reader that bytes stand for, in range or not.
pub fn read_state(bytes: &[u8]) -> ReaderStream
    requires { length bytes.now ≡ 1638 }
    ensures { result ≡ state_of bytes.now }
{
    let held = pairs_at(bytes, PAIRS);
    let count = number_at(bytes, COUNT);
    let rate = bytes[RATE];
    let memory = bytes[MEMORY];
    let carry = bytes[CARRY];
    let bits = bytes[HELD] as usize;
    let runs = SymbolRuns {
        rate,
        memory,
        held,
        count,
    };
    ReaderStream {
        runs,
        carry,
        held: bits,
    }
}

// Whether the numbers of a reader are in range, and cells and bits that hold nothing 0.
pub fn is_in_range(stream: ReaderStream) -> bool
    requires { length stream.runs.held ≡ 1632 }
    ensures { result ≡ in_range stream }
{
    are_in_range(stream.runs) && stream.held < 8 && stream.carry < power_of(stream.held)
}

// The bits that are carried, with 0 above them.
fn cleared_carry(carry: u8, held: usize) -> u8
    requires { held < 8 }
    ensures { result ≡ carry % power_of held }
{
    carry % power_of(held)
}

// Writes the fields to their places. The numbers are side by side.
fn put_fields(pairs: &[u8], numbers: &[u8], bytes: &mut [u8])
    requires { (length pairs.now ≡ 1632) × (length numbers.now ≡ 6) × (length bytes.old ≡ 1638) }
    ensures { bytes.new ≡ pairs.now ++ numbers.now }
{
    put(pairs, PAIRS, bytes);
    put(numbers, COUNT, bytes);
}

// The bytes that stand for a reader, with 0 where it holds nothing. That it is ready stays a fact: a reader is made of any bytes first, and then tested.
pub fn write_state(stream: ReaderStream, bytes: &mut [u8])
    requires { (ReaderReady stream) × (length bytes.old ≡ 1638) }
    ensures { bytes.new ≡ state_bytes (cleared stream) }
{
    let runs = stream.runs;
    let count = runs.count;
    let bits = stream.held;
    let pairs = cleared_pairs(runs);
    let carry = cleared_carry(stream.carry, bits);
    let numbers = [
        (count % 256) as u8,
        (count / 256) as u8,
        runs.rate,
        runs.memory,
        carry,
        bits as u8,
    ];
    put_fields(&pairs, &numbers, bytes);
}
