// A recording of received bytes: its whole blocks, one after the other.
#![tactic(auto)]

ghost use Rattle.std.specs.Prelude.{◌≡◌, true, ◌⊎◌, ◌+◌, ◌*◌, ◌/◌, ◌≤◌, length, take, drop, replicate};
ghost use Rattle.answer.specs.Number.{answered, given_or};
ghost use Rattle.receiver.specs.Receive.{fresh_receiver, receiver_in_range, NoMarks, ReceivesMarked, taken_number};
ghost use Rattle.recording.specs.Recording.{given_bytes, block_marks, marks_for, recording_number, TakesRecording, AnswersRecording, ReceivesRecording, ReceivesMarkedRecording};
ghost use Rattle.recording.specs.Returned.{Returns};

pub mod block;

use answer::Refusal;
use group_sync::Outcome;
use receiver::{Receiver, answer_number, receive_in_place};
use reception_counts::Counts;

// How many bytes of packets were written, and the receiver after it.
#[derive(Clone, Copy)]
pub struct Recorded {
    pub count: usize,
    pub receiver: Receiver,
}

// How many bytes of packet a call gives.
fn given_bytes(taken: Result<Outcome, Refusal>) -> usize
    ensures { result ≡ given_bytes (taken_number taken) }
{
    if answer_number(taken) == 0 {
        Receiver::PACKET_LENGTH
    } else {
        0
    }
}

// The marks of the block from a byte on: 0 where none come.
fn marks_at(marks: &[u8], at: usize) -> [u8; 204]
    requires { (length marks.now ≡ 0) ⊎ (at + 204 ≤ length marks.now) }
    ensures { result ≡ block_marks (drop at marks.now) }
{
    if marks.is_empty() {
        return [0u8; Receiver::BLOCK_LENGTH];
    }
    common::array_at(marks, at)
}

// Whether no mark is in the delays, where before says that none was. Without marks none has come since; with marks they are looked at.
fn still_clean(held: &[u8], marks: &[u8], before: bool) -> bool
    requires { (length held.now ≡ 1122) × (length marks.now ≡ 0 → before ≡ true → held.now ≡ replicate 1122 0) }
    ensures { result ≡ true → held.now ≡ replicate 1122 0 }
{
    if marks.is_empty() {
        return before;
    }
    common::largest_of(held) == 0
}

// Takes the block from a place on, with its marks, where there are any: one for each byte, or an empty list, as the C calls give them. `valid` and `clean`
// are what the receiver was found to be, and choose no step.
fn receive_at(
    receiver: &mut Receiver,
    valid: bool,
    clean: bool,
    bytes: &[u8],
    marks: &[u8],
    at: usize,
    output: &mut [u8],
) -> Result<Outcome, Refusal>
    requires { (at + 204 ≤ length bytes.now)
        × ((length marks.now ≡ 0) ⊎ (length marks.now ≡ length bytes.now))
        × (valid ≡ receiver_in_range receiver.old)
        × (clean ≡ true → NoMarks receiver.old) }
    ensures { ReceivesMarked receiver.old (take 204 (drop at bytes.now)) (block_marks (drop at marks.now)) output.old (taken_number result) receiver.new output.new }
{
    let end = at + Receiver::BLOCK_LENGTH;
    let own = marks_at(marks, at);
    receive_in_place(receiver, valid, clean, &bytes[at..end], &own, output)
}

// Takes the whole blocks, each with a call. Its packet goes into the output after the one before. There is a mark for each byte, or none at all.
// The receiver is tested once and changed in place, so that a block costs no copy of it.
pub fn receive_marked_blocks(
    receiver: Receiver,
    bytes: &[u8],
    marks: &[u8],
    output: &mut [u8],
) -> Recorded
    requires { (188 * (length bytes.now / 204) ≤ length output.old)
        × ((length marks.now ≡ 0) ⊎ (length marks.now ≡ length bytes.now)) }
    ensures { TakesRecording receiver bytes.now marks.now output.old result.count result.receiver output.new }
{
    let mut receiver = receiver;
    let valid = receiver.in_range();
    let mut clean = common::largest_of(&receiver.marks) == 0;
    let mut count: usize = 0;
    for i in 0..bytes.len() / Receiver::BLOCK_LENGTH {
        clean = still_clean(&receiver.marks, marks, clean);
        let at = Receiver::BLOCK_LENGTH * i;
        let taken = receive_at(
            &mut receiver,
            valid,
            clean,
            bytes,
            marks,
            at,
            &mut output[count..],
        );
        count += given_bytes(taken);
    }
    Recorded { count, receiver }
}

// Takes the whole blocks of a recording, and writes their packets one after the other. Bytes after the last whole block are not taken.
// Nothing is taken unless there is room for a packet for each of them, and all of them can be counted.
fn take_recording(
    receiver: Receiver,
    bytes: &[u8],
    marks: &[u8],
    output: &mut [u8],
) -> Result<Recorded, Refusal>
    requires { (length marks.now ≡ 0) ⊎ (length marks.now ≡ length bytes.now) }
    ensures answers { AnswersRecording receiver bytes.now marks.now output.old (recording_number receiver bytes.now output.old) (answered result) (given_or 0 (λ r. r.count) result) (given_or receiver (λ r. r.receiver) result) output.new }
{
    if !receiver.in_range() {
        return Err(Refusal::StateRange);
    }
    let blocks = bytes.len() / Receiver::BLOCK_LENGTH;
    if output.len() < Receiver::PACKET_LENGTH * blocks {
        return Err(Refusal::OutputLength);
    }
    if Counts::MOST - receiver.counts.taken < blocks as u64 {
        return Err(Refusal::CountsFull);
    }
    Ok(receive_marked_blocks(receiver, bytes, marks, output))
}

// The whole blocks of a recording, with no mark for any byte.
pub fn receive_recording(
    receiver: Receiver,
    bytes: &[u8],
    output: &mut [u8],
) -> Result<Recorded, Refusal>
    ensures receives { ReceivesRecording receiver bytes.now output.old (answered result) (given_or 0 (λ r. r.count) result) (given_or receiver (λ r. r.receiver) result) output.new }
{
    take_recording(receiver, bytes, &[], output)
}

// Whether there is a mark, 0 or 1, for each byte.
pub fn are_marks_for(bytes: &[u8], marks: &[u8]) -> bool
    ensures { result ≡ marks_for bytes.now marks.now }
{
    marks.len() == bytes.len() && common::largest_of(marks) < 2
}

// The whole blocks of a recording, with a mark for each byte.
pub fn receive_marked_recording(
    receiver: Receiver,
    bytes: &[u8],
    marks: &[u8],
    output: &mut [u8],
) -> Result<Recorded, Refusal>
    ensures receives { ReceivesMarkedRecording receiver bytes.now marks.now output.old (answered result) (given_or 0 (λ r. r.count) result) (given_or receiver (λ r. r.receiver) result) output.new }
{
    if !receiver.in_range() {
        return Err(Refusal::StateRange);
    }
    if !are_marks_for(bytes, marks) {
        return Err(Refusal::MarkValue);
    }
    take_recording(receiver, bytes, marks, output)
}

// A fresh receiver over a whole recording, with a mark for each byte.
pub fn receive_marked_run(
    bytes: &[u8],
    marks: &[u8],
    output: &mut [u8],
) -> Result<Recorded, Refusal>
    ensures receives { ReceivesMarkedRecording fresh_receiver bytes.now marks.now output.old (answered result) (given_or 0 (λ r. r.count) result) (given_or fresh_receiver (λ r. r.receiver) result) output.new }
{
    receive_marked_recording(Receiver::new(), bytes, marks, output)
}

// A fresh receiver over a whole recording. Where that is what a fresh sender sent, its packets come back.
pub fn receive_run(bytes: &[u8], output: &mut [u8]) -> Result<Recorded, Refusal>
    ensures receives_recording { ReceivesRecording fresh_receiver bytes.now output.old (answered result) (given_or 0 (λ r. r.count) result) (given_or fresh_receiver (λ r. r.receiver) result) output.new }
    ensures returns { Returns bytes.now output.old (answered result) (given_or 0 (λ r. r.count) result) output.new }
{
    receive_recording(Receiver::new(), bytes, output)
}
