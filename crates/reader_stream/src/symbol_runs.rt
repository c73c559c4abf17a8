// Received symbols decided in runs that overlap, so that no decision is kept that few symbols stand behind.
ghost use Rattle.std.specs.Prelude.{◌≡◌, [], ◌<◌, ◌≤◌, length};
ghost use Rattle.common.specs.Lists.{All};
ghost use Rattle.convolutional_code.specs.Code.{memory_after};
ghost use Rattle.convolutional_code.specs.Bits.{Bits};
ghost use Rattle.puncturing.specs.Mode.{qpsk_count};
ghost use Rattle.reader_stream.specs.Runs.{full_symbols, kept_symbols, kept_bits, FullRead, RunsReady, RunsHold, FeedsSymbols, ClosesRuns};

use code_tables::QPSK_MODES;
use common::put;
use convolutional_code::next_memory;
use reader::{read_pairs, symbol_count};

// Runs in progress: the rate, the coder's memory before the first symbol that is held, the decisions on the symbols that are held, one number for each,
// and how many these are: an array with a count, since no memory is taken for it.
#[derive(Clone, Copy)]
pub struct SymbolRuns {
    pub rate: u8,
    pub memory: u8,
    pub held: [u8; 1632],
    pub count: usize,
}

// The runs after a piece, how many symbols of the piece were taken, and how many bits are decided.
#[derive(Clone, Copy)]
pub struct RunsFed {
    pub runs: SymbolRuns,
    pub taken: usize,
    pub count: usize,
}

// How many bits the last patterns have, and how many symbols make no whole pattern.
#[derive(Clone, Copy)]
pub struct Closed {
    pub count: usize,
    pub rest: usize,
}

// A rate's longest run: its symbols, those whose bits are kept, and these bits.
#[derive(Clone, Copy)]
struct LongestRun {
    symbols: usize,
    kept: usize,
    bits: usize,
}

const LONGEST_RUNS: [LongestRun; QPSK_MODES] = [
    LongestRun {
        symbols: 1632,
        kept: 1531,
        bits: 1531,
    },
    LongestRun {
        symbols: 1224,
        kept: 1146,
        bits: 1528,
    },
    LongestRun {
        symbols: 1088,
        kept: 1020,
        bits: 1530,
    },
    LongestRun {
        symbols: 978,
        kept: 915,
        bits: 1525,
    },
    LongestRun {
        symbols: 932,
        kept: 872,
        bits: 1526,
    },
];

pub fn full_symbols(rate: u8) -> usize
    requires { rate < qpsk_count }
    ensures { result ≡ full_symbols rate }
{
    LONGEST_RUNS[rate as usize].symbols
}

fn kept_symbols(rate: u8) -> usize
    requires { rate < qpsk_count }
    ensures { result ≡ kept_symbols rate }
{
    LONGEST_RUNS[rate as usize].kept
}

fn kept_bits(rate: u8) -> usize
    requires { rate < qpsk_count }
    ensures { result ≡ kept_bits rate }
{
    LONGEST_RUNS[rate as usize].bits
}

// The coder's memory after bits, taken one by one. A memory below 64 stays a fact: in the bytes of a state it may be any byte, which is tested.
fn memory_through(memory: u8, bits: &[u8]) -> u8
    requires { (memory < 64) × (Bits bits.now) }
    ensures { result ≡ memory_after memory bits.now }
{
    let mut m = memory;
    for bit in bits {
        m = next_memory(m, *bit);
    }
    m
}

// The same. The memory is the last six bits, so no earlier ones are looked at.
fn memory_after(memory: u8, bits: &[u8]) -> u8
    requires { (memory < 64) × (Bits bits.now) }
    ensures { result ≡ memory_after memory bits.now }
{
    if bits.len() < 6 {
        return memory_through(memory, bits);
    }
    let from = bits.len() - 6;
    memory_through(memory, &bits[from..])
}

// Reads a longest run into the output: the memory after the bits of it that are kept. The output is lent by the caller, and may be longer than a run.
fn read_full(rate: u8, memory: u8, pairs: &[u8], output: &mut [u8]) -> u8
    requires { (rate < qpsk_count) × (memory < 64) × (length pairs.now ≡ full_symbols rate) × (All (λ p. p < 81) pairs.now) × (1632 ≤ length output.old) }
    ensures { FullRead rate memory pairs.now output.old result output.new }
{
    read_pairs(rate, memory, pairs, output);
    let kept = kept_bits(rate);
    memory_after(memory, &output[0..kept])
}

// Runs of which nothing has come.
pub fn open(rate: u8) -> SymbolRuns
    requires { rate < qpsk_count }
    ensures { (RunsReady result) × (RunsHold result rate 0 []) }
{
    SymbolRuns {
        rate,
        memory: 0,
        held: [0; 1632],
        count: 0,
    }
}

// Takes the symbols of a piece, the decisions on each as one number: as many as make a longest run with those that are held, or all. Where they make one, it is read into the
// output, and the bits that are decided stand at its front.
pub fn feed(runs: SymbolRuns, piece: &[u8], output: &mut [u8]) -> RunsFed
    requires { (RunsReady runs) × (All (λ p. p < 81) piece.now) × (1632 ≤ length output.old) }
    ensures { (FeedsSymbols runs piece.now output.old result.runs result.taken result.count output.new) × (RunsReady result.runs) }
{
    let rate = runs.rate;
    let memory = runs.memory;
    let count = runs.count;
    let mut held = runs.held;
    let full = full_symbols(rate);
    let space = full - count;
    if piece.len() < space {
        put(piece, count, &mut held);
        return RunsFed {
            runs: SymbolRuns {
                rate,
                memory,
                held,
                count: count + piece.len(),
            },
            taken: piece.len(),
            count: 0,
        };
    }
    put(&piece[0..space], count, &mut held);
    let after = read_full(rate, memory, &held[0..full], output);
    let from = kept_symbols(rate);
    let mut next = [0u8; 1632];
    put(&held[from..full], 0, &mut next);
    RunsFed {
        runs: SymbolRuns {
            rate,
            memory: after,
            held: next,
            count: full - from,
        },
        taken: space,
        count: kept_bits(rate),
    }
}

// The end: reads the whole patterns that are held into the output.
pub fn close(runs: SymbolRuns, output: &mut [u8]) -> Closed
    requires { (RunsReady runs) × (1632 ≤ length output.old) }
    ensures { ClosesRuns runs output.old result.count result.rest output.new }
{
    let rate = runs.rate;
    let memory = runs.memory;
    let count = runs.count;
    let held = runs.held;
    let rest = count % symbol_count(rate) as usize;
    let end = count - rest;
    let read = read_pairs(rate, memory, &held[0..end], output);
    Closed {
        count: read.count,
        rest,
    }
}
