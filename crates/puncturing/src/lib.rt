// The puncturing of the coded bits, and the symbols that they make up.
// Inner: its functions may require what the crates above have tested. docs/ARCHITECTURE.md names the public surface.
#![tactic(auto)]

ghost use Rattle.std.specs.Prelude.{◌≡◌, ℕ, ◌+◌, ◌-◌, ◌*◌, ◌<◌, ◌≤◌, length};
ghost use Rattle.common.specs.Lists.{placed};
ghost use Rattle.convolutional_code.specs.Bits.{Bits};
ghost use Rattle.puncturing.specs.Mode.{mode_of, mode_count, qpsk_count, longest_pattern, block_bits};
ghost use Rattle.puncturing.specs.Step.{pattern_length, place_next, held_count, punctured, symbols_in};
ghost use Rattle.puncturing.specs.Run.{by_kind, puncture_step, punctured_symbols, pattern_place_after, progress};

mod tables;
mod whole;

use code_tables::{LONGEST_PATTERN, MODES, PATTERN_LENGTHS};
use tables::{COMPLETED, COUNTS, Completion, HELD};
use whole::whole_patterns;

// X of each bit of a block, and then Y of each. That each is a bit stays a fact beside it: the loops count with the bytes, so bools would be turned into numbers
// at each use.
type Coded = [u8; 3264];

// Which modes are sent.
const SENT: [bool; MODES] = [true, true, true, true, false, true];

// Whether a mode is sent. No other number is one.
// A rate stays a number, and so does a place of its pattern: the calls of the library take any and refuse those that are none, and the definitions count with
// them. `place` and `held` come apart too, since they are two bytes of a coder's state, and the bounds of one are asked where the other plays no part.
pub fn is_sent(rate: u8) -> bool
    ensures { result ≡ (mode_of rate).sent }
{
    (rate as usize) < MODES && SENT[rate as usize]
}

pub fn pattern_length(rate: u8) -> u8
    requires { rate < mode_count }
    ensures { result ≡ pattern_length rate }
{
    PATTERN_LENGTHS[rate as usize]
}

// The entry of a table for a place of a rate's pattern.
fn cell(rate: u8, place: u8) -> usize
    requires { (rate < mode_count) × (place < pattern_length rate) }
    ensures { (result ≡ rate * longest_pattern + place) × (result < longest_pattern * mode_count) }
{
    rate as usize * LONGEST_PATTERN + place as usize
}

pub fn held_count(rate: u8, place: u8) -> u8
    requires { (rate < mode_count) × (place < pattern_length rate) }
    ensures { result ≡ held_count rate place }
{
    HELD[cell(rate, place)]
}

pub fn block_count(rate: u8, place: u8) -> u16
    requires { (rate < mode_count) × (place < pattern_length rate) }
    ensures { result ≡ symbols_in rate place (block_bits rate) }
{
    COUNTS[cell(rate, place)]
}

fn completed_at(rate: u8, place: u8) -> Completion
    requires { (rate < mode_count) × (place < pattern_length rate) }
    ensures { (x y held : ℕ) → punctured rate place x y held ≡ by_kind result x y held }
{
    COMPLETED[cell(rate, place)]
}

fn completed(completion: Completion, x: u8, y: u8, held: u8) -> Option<u8>
    requires { (x < 2) × (y < 2) × (held < 2) }
    ensures { result ≡ by_kind completion x y held }
{
    match completion {
        Completion::Nothing => None,
        Completion::XY => Some(2 * x + y),
        Completion::HeldX => Some(2 * held + x),
        Completion::HeldY => Some(2 * held + y),
        Completion::YX => Some(2 * y + x),
    }
}

fn next_place(rate: u8, place: u8) -> u8
    requires { (rate < mode_count) × (place < pattern_length rate) }
    ensures { result ≡ place_next rate place }
{
    (place + 1) % pattern_length(rate)
}

#[derive(Clone, Copy)]
pub struct Punctured {
    pub place: u8,
    pub held: u8,
    // What the bit completes: no symbol yet, or one with this number.
    pub symbol: Option<u8>,
}

// X and Y of one bit.
pub fn puncture(rate: u8, place: u8, held: u8, x: u8, y: u8) -> Punctured
    requires { (rate < mode_count) × (place < pattern_length rate) × (held < 2) × (x < 2) × (y < 2) }
    ensures { result ≡ puncture_step rate place held x y }
{
    let next = next_place(rate, place);
    let kept = y * held_count(rate, next);
    let completion = completed_at(rate, place);
    Punctured {
        place: next,
        held: kept,
        symbol: completed(completion, x, y, held),
    }
}

// Where the puncturing stands after a run, and how many symbols are in the output.
#[derive(Clone, Copy)]
pub struct Progress {
    pub place: u8,
    pub held: u8,
    pub count: usize,
}

// Bits from .. to, one by one, from where the puncturing stands, into an output that has space for their symbols.
fn puncture_bits(
    rate: u8,
    start: Progress,
    coded: &Coded,
    from: usize,
    to: usize,
    output: &mut [u8],
) -> Progress
    requires { (rate < qpsk_count)
        × (start.place < pattern_length rate)
        × (start.held ≤ held_count rate start.place)
        × (Bits coded.now)
        × (from ≤ to)
        × (to ≤ 1632)
        × (start.count + length (punctured_symbols rate start.place start.held coded.now from (to - from)) ≤ length output.old) }
    ensures { (result ≡ progress rate start.place start.held coded.now from (to - from) start.count)
        × (output.new ≡ placed output.old start.count (punctured_symbols rate start.place start.held coded.now from (to - from))) }
{
    let mut place = start.place;
    let mut held = start.held;
    let mut count = start.count;
    for n in from..to {
        let punctured = puncture(rate, place, held, coded[n], coded[1632 + n]);
        if let Some(symbol) = punctured.symbol {
            output[count] = symbol;
            count += 1;
        }
        place = punctured.place;
        held = punctured.held;
    }
    Progress { place, held, count }
}

// X and Y of each bit of a block: bit by bit to the start of a pattern, then whole patterns up to tail, then the rest bit by bit.
fn puncture_parts(
    rate: u8,
    place: u8,
    held: u8,
    coded: &Coded,
    head: usize,
    turns: usize,
    tail: usize,
    output: &mut [u8],
) -> Progress
    requires { (rate < qpsk_count)
        × (place < pattern_length rate)
        × (held ≤ held_count rate place)
        × (Bits coded.now)
        × (pattern_place_after rate place head ≡ 0)
        × (tail ≡ head + turns * pattern_length rate)
        × (tail ≤ 1632)
        × (length (punctured_symbols rate place held coded.now 0 1632) ≤ length output.old) }
    ensures { (result ≡ progress rate place held coded.now 0 1632 0)
        × (output.new ≡ placed output.old 0 (punctured_symbols rate place held coded.now 0 1632)) }
{
    let start = Progress {
        place,
        held,
        count: 0,
    };
    let first = puncture_bits(rate, start, coded, 0, head, output);
    let count = whole_patterns(rate, coded, head, turns, output, first.count);
    let next = Progress {
        place: 0,
        held: 0,
        count,
    };
    puncture_bits(rate, next, coded, tail, 1632, output)
}

// X and Y of each bit of a block, into an output that is long enough.
pub fn puncture_block(rate: u8, place: u8, held: u8, coded: &Coded, output: &mut [u8]) -> Progress
    requires { (rate < qpsk_count)
        × (place < pattern_length rate)
        × (held ≤ held_count rate place)
        × (Bits coded.now)
        × (length (punctured_symbols rate place held coded.now 0 1632) ≤ length output.old) }
    ensures { (result ≡ progress rate place held coded.now 0 1632 0)
        × (output.new ≡ placed output.old 0 (punctured_symbols rate place held coded.now 0 1632)) }
{
    let len = pattern_length(rate) as usize;
    let head = (len - place as usize) % len;
    let turns = (1632 - head) / len;
    puncture_parts(
        rate,
        place,
        held,
        coded,
        head,
        turns,
        head + turns * len,
        output,
    )
}
