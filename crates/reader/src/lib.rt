// Reading runs of received symbols: the bits whose coding costs the least, by hard or by soft decisions. The two differ in the costs alone.
#![tactic(auto)]

ghost use Rattle.std.specs.Prelude.{◌≡◌, ℕ, ◌<◌, ◌≤◌, length, get_or};
ghost use Rattle.answer.specs.Number.{answered, given_or};
ghost use Rattle.common.specs.Lists.{All};
ghost use Rattle.puncturing.specs.Mode.{qpsk_count};
ghost use Rattle.reader.specs.Cost.{run_cost, costs_of};
ghost use Rattle.reader.specs.Read.{symbols_per_pattern, run_bits, sound, answer_number, Readable, BestRead, ReadsHard, ReadsSoft};
ghost use Rattle.reader.specs.Decisions.{hard_pair};

use answer::Refusal;
use branch_metrics::depuncturing::spread_pairs;
use branch_metrics::soft_decision::soft_pairs;
use code_tables::QPSK_MODES;
use puncturing::pattern_length;
use viterbi_decoder::{DecodedRun, decode};

// The bits of the longest run.
const LONGEST: usize = 1632;

// The symbols of each rate's pattern.
const SYMBOL_COUNTS: [u8; QPSK_MODES] = [1, 3, 2, 3, 4];

// What a run was read as: the coder's memory after the bits, what they cost, and how many bits were written.
#[derive(Clone, Copy)]
pub struct Read {
    pub memory: u8,
    pub cost: u64,
    pub count: usize,
}

pub fn symbol_count(rate: u8) -> u8
    requires { rate < qpsk_count }
    ensures { result ≡ symbols_per_pattern rate }
{
    SYMBOL_COUNTS[rate as usize]
}

// Whether the lists of a soft run are of one length, and its marks 0 and 1.
pub fn is_sound(is: &[f32], qs: &[f32], lost: &[u8]) -> bool
    ensures { result ≡ sound is.now qs.now lost.now }
{
    qs.len() == is.len() && lost.len() == is.len() && common::largest_of(lost) < 2
}

// The refusal that is due to a run of so many symbols, by the tests of both calls, where its lists and its symbols pass their own or not and
// there is space for so many bits. lists and valid are what those tests found: each call has lists and symbols of its own kind.
fn answer_due(
    rate: u8,
    memory: u8,
    lists: bool,
    symbols: usize,
    valid: bool,
    space: usize,
) -> Result<(), Refusal>
    ensures { answered result ≡ answer_number rate memory lists symbols valid space }
{
    if rate as usize >= QPSK_MODES {
        return Err(Refusal::UnknownRate);
    }
    if memory >= 64 {
        return Err(Refusal::StateRange);
    }
    if !lists {
        return Err(Refusal::SoftLists);
    }
    let bits = pattern_length(rate) as usize;
    let pattern = symbol_count(rate) as usize;
    if symbols % pattern != 0 {
        return Err(Refusal::PatternLength);
    }
    let patterns = symbols / pattern;
    if patterns > LONGEST / bits {
        return Err(Refusal::RunLength);
    }
    if !valid {
        return Err(Refusal::SymbolRange);
    }
    if space < bits * patterns {
        return Err(Refusal::OutputLength);
    }
    Ok(())
}

// Hard decisions: writes the pair of each symbol. They are the two levels in the middle, 4 for a 0 and 3 for a 1, which cost 3 each and 1 more where the bit
// is decided otherwise.
pub fn hard_pairs(symbols: &[u8], output: &mut [u8])
    requires { (All (λ s. s < 4) symbols.now) × (length symbols.now ≤ length output.old) }
    ensures { (t : ℕ) → t < length symbols.now → get_or output.new t 0 ≡ hard_pair (get_or symbols.now t 0) }
{
    for (i, s) in symbols.iter().enumerate() {
        output[i] = 40 - 9 * (*s / 2) - *s % 2;
    }
}

// Decodes a run from the decisions on its symbols, where count is how many bits it has.
fn decode_pairs(rate: u8, memory: u8, pairs: &[u8], count: usize, output: &mut [u8]) -> DecodedRun
    requires { (Readable rate memory pairs.now output.old) × (count ≡ run_bits rate (length pairs.now)) }
    ensures { (BestRead (run_cost (costs_of pairs.now) rate memory) (run_bits rate (length pairs.now)) memory output.old result.memory result.cost count output.new)
        × (result.memory < 64) }
{
    let mut steps = [0u8; 1632];
    spread_pairs(
        pairs,
        rate as usize,
        pattern_length(rate) as usize,
        count,
        &mut steps,
    );
    decode(&steps[0..count], memory as usize, &mut output[0..count])
}

// The core of both calls: reads a run from the decisions on I and Q of its symbols, one number for each. The cost is by these decisions.
pub fn read_pairs(rate: u8, memory: u8, pairs: &[u8], output: &mut [u8]) -> Read
    requires { Readable rate memory pairs.now output.old }
    ensures { BestRead (run_cost (costs_of pairs.now) rate memory) (run_bits rate (length pairs.now)) memory output.old result.memory result.cost result.count output.new }
{
    let bits = pattern_length(rate) as usize;
    let pattern = symbol_count(rate) as usize;
    let count = bits * (pairs.len() / pattern);
    let run = decode_pairs(rate, memory, pairs, count, output);
    Read {
        memory: run.memory as u8,
        cost: run.cost as u64,
        count,
    }
}

// Reads a run of symbols that begins with a puncturing pattern, where memory is the coder's before it: writes one byte for each bit, 0 or 1.
// The cost is in how many I and Q bits the coding of the bits differs from the symbols. The memory handed back serves the run that follows.
pub fn read_run(rate: u8, memory: u8, symbols: &[u8], output: &mut [u8]) -> Result<Read, Refusal>
    ensures { ReadsHard rate memory symbols.now output.old (answered result) (given_or memory (λ r. r.memory) result) (given_or 0 (λ r. r.cost) result)
        (given_or 0 (λ r. r.count) result) output.new }
{
    let valid = common::largest_of(symbols) < 4;
    answer_due(rate, memory, true, symbols.len(), valid, output.len())?;
    let mut pairs = [0u8; 1632];
    hard_pairs(symbols, &mut pairs);
    let read = read_pairs(rate, memory, &pairs[..symbols.len()], output);
    let excess = 6 * symbols.len() as u64;
    Ok(Read {
        cost: read.cost - excess,
        ..read
    })
}

// The same by soft decisions: of each symbol the two numbers of its point, and 1 where it was lost or 0.
pub fn read_soft_run(
    rate: u8,
    memory: u8,
    is: &[f32],
    qs: &[f32],
    lost: &[u8],
    output: &mut [u8],
) -> Result<Read, Refusal>
    ensures { ReadsSoft rate memory is.now qs.now lost.now output.old (answered result) (given_or memory (λ r. r.memory) result) (given_or 0 (λ r. r.cost) result)
        (given_or 0 (λ r. r.count) result) output.new }
{
    let lists = is_sound(is, qs, lost);
    answer_due(rate, memory, lists, is.len(), true, output.len())?;
    let mut pairs = [0u8; 1632];
    soft_pairs(is, qs, lost, &mut pairs);
    Ok(read_pairs(rate, memory, &pairs[..is.len()], output))
}
