// A receiver of pieces whose state is bytes that the firmware keeps, as functions for C.
// Their declarations are in include/dvbs.h, and docs/STATES.md lists the layout of the state.
#![tactic(auto)]

ghost use Rattle.std.specs.Prelude.{◌≡◌};
ghost use Rattle.dvbs_receiver.specs.Calls.{fresh_number, fresh_bytes, FeedsPiece, ReportsState};

use answer::Refusal;
use receiver_stream::ReceiverStream;

mod layout;

use layout::{STATE_LENGTH, is_clear, read_state, write_state};

// Makes the state of a fresh receiver: the number of the answer.
#[unsafe(no_mangle)]
pub extern "C" fn dvbs_receiver_fresh(state: &mut [u8]) -> u8
    ensures { (result ≡ fresh_number state.old)
        × (state.new ≡ fresh_bytes state.old) }
{
    if state.len() != STATE_LENGTH {
        return Refusal::StateLength.number();
    }
    write_state(ReceiverStream::new(), state);
    0
}

// Takes a piece with a mark for each byte: the number of bytes of packets written. The first byte of answer has the number of the answer.
#[unsafe(no_mangle)]
pub extern "C" fn dvbs_receiver_feed(
    state: &mut [u8],
    piece: &[u8],
    marks: &[u8],
    output: &mut [u8],
    answer: &mut [u8],
) -> u64
    ensures { FeedsPiece state.old piece.now marks.now output.old answer.old result state.new output.new answer.new }
{
    if answer.len() < 1 {
        return 0;
    }
    if state.len() != STATE_LENGTH {
        answer[0] = Refusal::StateLength.number();
        return 0;
    }
    let before = read_state(state);
    if !is_clear(before) {
        answer[0] = Refusal::StateRange.number();
        return 0;
    }
    match before.feed(piece, marks, output) {
        Ok(fed) => {
            answer[0] = 0;
            write_state(fed.stream, state);
            fed.count as u64
        }
        Err(refusal) => {
            answer[0] = refusal.number();
            0
        }
    }
}

// Writes the pass report of all that came: its length. The first byte of answer has the number of the answer.
#[unsafe(no_mangle)]
pub extern "C" fn dvbs_receiver_report(state: &[u8], output: &mut [u8], answer: &mut [u8]) -> u64
    ensures { ReportsState state.now output.old answer.old result output.new answer.new }
{
    if answer.len() < 1 {
        return 0;
    }
    if state.len() != STATE_LENGTH {
        answer[0] = Refusal::StateLength.number();
        return 0;
    }
    let stream = read_state(state);
    if !is_clear(stream) {
        answer[0] = Refusal::StateRange.number();
        return 0;
    }
    match stream.report(output) {
        Ok(length) => {
            answer[0] = 0;
            length as u64
        }
        Err(refusal) => {
            answer[0] = refusal.number();
            0
        }
    }
}
