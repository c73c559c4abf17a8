// A reader of received symbols, by hard or by soft decisions, whose state is bytes that the firmware keeps, as functions for C.
// Their declarations are in include/dvbs.h, and docs/STATES.md lists the layout of the state.
#![tactic(auto)]

ghost use Rattle.std.specs.Prelude.{◌≡◌, ◌≢◌, ◌⊎◌, List, ℕ, true, false, ◌≤◌, length, set, MatchResult};
ghost use Rattle.answer.specs.Number.{number_of, answered, given_or};
ghost use Rattle.dvbs_reader_stream.specs.State.{state_length, in_range};
ghost use Rattle.dvbs_reader_stream.specs.Reading.{state_of};
ghost use Rattle.dvbs_reader_stream.specs.Calls.{fresh_number, fresh_bytes, symbols_due, points_due, end_due, FeedsHard, FeedsSoft, EndsState};

use answer::Refusal;
use code_tables::QPSK_MODES;
use common::largest_of;
use reader::is_sound;
use reader_stream::ReaderStream;

mod layout;
mod pieces;

use layout::{STATE_LENGTH, is_in_range, read_state, write_state};
use pieces::{feed_points, feed_symbols};

// Makes the state of a fresh reader of a rate: the number of the answer.
#[unsafe(no_mangle)]
pub extern "C" fn dvbs_reader_fresh(state: &mut [u8], rate: u8) -> u8
    ensures { (result ≡ fresh_number state.old rate)
        × (state.new ≡ fresh_bytes state.old rate) }
{
    if state.len() != STATE_LENGTH {
        return Refusal::StateLength.number();
    }
    if rate as usize >= QPSK_MODES {
        return Refusal::UnknownRate.number();
    }
    let stream = ReaderStream::new(rate);
    write_state(stream, state);
    0
}

// The reader that a state stands for, or why it stands for none.
fn reader_of(state: &[u8]) -> Result<ReaderStream, Refusal>
    ensures { MatchResult result (λ s. (length state.now ≡ state_length) × (in_range s ≡ true) × (s ≡ state_of state.now))
        (λ refusal. ((number_of refusal ≡ 22) × (length state.now ≢ state_length)) ⊎ ((number_of refusal ≡ 5) × (length state.now ≡ state_length) × (in_range (state_of state.now) ≡ false))) }
{
    if state.len() != STATE_LENGTH {
        return Err(Refusal::StateLength);
    }
    let stream = read_state(state);
    if !is_in_range(stream) {
        return Err(Refusal::StateRange);
    }
    Ok(stream)
}

// The refusal that is due to symbols, where there is room for so many bytes.
fn symbols_due(symbols: &[u8], room: usize) -> Result<(), Refusal>
    ensures { answered result ≡ symbols_due symbols.now room }
{
    if largest_of(symbols) >= 4 {
        return Err(Refusal::SymbolRange);
    }
    if room < symbols.len() / 4 + 409 {
        return Err(Refusal::OutputLength);
    }
    Ok(())
}

// The refusal that is due to points. Their lists stay three, as the C call gives them.
fn points_due(is: &[f32], qs: &[f32], lost: &[u8], room: usize) -> Result<(), Refusal>
    ensures { answered result ≡ points_due is.now qs.now lost.now room }
{
    if !is_sound(is, qs, lost) {
        return Err(Refusal::SoftLists);
    }
    if room < is.len() / 4 + 409 {
        return Err(Refusal::OutputLength);
    }
    Ok(())
}

// The refusal that is due to the end, where there is room for so many bytes and so many are lent for what is left.
fn end_due(room: usize, left: usize) -> Result<(), Refusal>
    ensures { answered result ≡ end_due room left }
{
    if room < 204 || left < 2 {
        return Err(Refusal::OutputLength);
    }
    Ok(())
}

// Takes symbols: the number of bytes written.
fn feed_state(state: &mut [u8], symbols: &[u8], output: &mut [u8]) -> Result<usize, Refusal>
    ensures { (answer : List ℕ) → 1 ≤ length answer
        → FeedsHard state.old symbols.now output.old answer (given_or 0 (λ count. count) result) state.new output.new (set answer 0 (answered result)) }
{
    let before = reader_of(state)?;
    symbols_due(symbols, output.len())?;
    let fed = feed_symbols(before, symbols, output);
    write_state(fed.stream, state);
    Ok(fed.count)
}

// Takes points and lost symbols: the same.
fn feed_soft_state(
    state: &mut [u8],
    is: &[f32],
    qs: &[f32],
    lost: &[u8],
    output: &mut [u8],
) -> Result<usize, Refusal>
    ensures { (answer : List ℕ) → 1 ≤ length answer
        → FeedsSoft state.old is.now qs.now lost.now output.old answer (given_or 0 (λ count. count) result) state.new output.new (set answer 0 (answered result)) }
{
    let before = reader_of(state)?;
    points_due(is, qs, lost, output.len())?;
    let fed = feed_points(before, is, qs, lost, output);
    write_state(fed.stream, state);
    Ok(fed.count)
}

// Writes the bytes of what is left, and how many symbols are in no pattern and how many bits in no byte: the number of bytes written.
fn end_state(state: &[u8], output: &mut [u8], left: &mut [u8]) -> Result<usize, Refusal>
    ensures { (answer : List ℕ) → 1 ≤ length answer
        → EndsState state.now output.old left.old answer (given_or 0 (λ count. count) result) output.new left.new (set answer 0 (answered result)) }
{
    let stream = reader_of(state)?;
    end_due(output.len(), left.len())?;
    let mut bits = [0u8; 1632];
    let finished = stream.finish(&mut bits, output);
    left[0] = finished.rest as u8;
    left[1] = finished.bits as u8;
    Ok(finished.count)
}

// Writes the number of the answer of a call: the number of bytes that it wrote.
fn tell(done: Result<usize, Refusal>, answer: &mut [u8]) -> u64
    requires { 1 ≤ length answer.old }
    ensures counted { result ≡ given_or 0 (λ count. count) done }
    ensures told { answer.new ≡ set answer.old 0 (answered done) }
{
    match done {
        Ok(count) => {
            answer[0] = 0;
            count as u64
        }
        Err(refusal) => {
            answer[0] = refusal.number();
            0
        }
    }
}

// Takes symbols: the number of bytes written. The first byte of answer has the number of the answer.
#[unsafe(no_mangle)]
pub extern "C" fn dvbs_reader_feed(
    state: &mut [u8],
    symbols: &[u8],
    output: &mut [u8],
    answer: &mut [u8],
) -> u64
    ensures { FeedsHard state.old symbols.now output.old answer.old result state.new output.new answer.new }
{
    if answer.len() < 1 {
        return 0;
    }
    tell(feed_state(state, symbols, output), answer)
}

// Takes points and lost symbols: the same.
#[unsafe(no_mangle)]
pub extern "C" fn dvbs_reader_feed_soft(
    state: &mut [u8],
    i: &[f32],
    q: &[f32],
    lost: &[u8],
    output: &mut [u8],
    answer: &mut [u8],
) -> u64
    ensures { FeedsSoft state.old i.now q.now lost.now output.old answer.old result state.new output.new answer.new }
{
    if answer.len() < 1 {
        return 0;
    }
    tell(feed_soft_state(state, i, q, lost, output), answer)
}

// Writes the bytes of what is left, where no more comes: how many. The first two bytes of left have how many symbols are in no pattern and how many bits in no
// byte, and the first byte of answer the number of the answer.
#[unsafe(no_mangle)]
pub extern "C" fn dvbs_reader_end(
    state: &[u8],
    output: &mut [u8],
    left: &mut [u8],
    answer: &mut [u8],
) -> u64
    ensures { EndsState state.now output.old left.old answer.old result output.new left.new answer.new }
{
    if answer.len() < 1 {
        return 0;
    }
    tell(end_state(state, output, left), answer)
}
