// A reception in progress: a receiver that takes received bytes, with a mark for each, in pieces of any length, and holds those of a block that is not
// whole yet.
#![tactic(auto)]

ghost use Rattle.std.specs.Prelude.{◌≡◌, ◌++◌, ◌+◌, ◌-◌, ◌*◌, ◌/◌, ◌%◌, ◌≤◌, ◌<◌, length};
ghost use Rattle.answer.specs.Number.{answered, given_or};
ghost use Rattle.common.specs.Choice.{pick};
ghost use Rattle.recording.specs.Recording.{TakesRecording};
ghost use Rattle.receiver_stream.specs.Feed.{fresh_receiver_stream, receiver_stream_in_range, capacity_of, bytes_held, held_marks, ReceivesPiece, FeedsReceiver};
ghost use Rattle.receiver_stream.specs.Reporting.{report_of, Reports};

use answer::Refusal;
use common::joined;
use receiver::Receiver;
use reception_counts::Counts;
use recording::Recorded;
use report::{Bits, Report};

// A receiver, and the bytes after the last whole block: how many, and the fronts of the arrays that have them and their marks, since no memory is taken
// for them. That fewer than 204 are held is a fact beside it: the numbers are public, and `in_range` tests them.
#[derive(Clone, Copy)]
pub struct ReceiverStream {
    pub receiver: Receiver,
    pub pending: [u8; 204],
    pub marks: [u8; 204],
    pub held: usize,
}

// How many bytes of packets were written, and the stream receiver after it.
#[derive(Clone, Copy)]
pub struct ReceiverFed {
    pub count: usize,
    pub stream: ReceiverStream,
}

// How many whole blocks so many bytes held and so many that come make.
fn whole_blocks(held: usize, length: usize) -> usize
    requires { held < 204 }
    ensures { result ≡ (held + length) / 204 }
{
    let missing = Receiver::BLOCK_LENGTH - held;
    if length < missing {
        0
    } else {
        (length - missing) / Receiver::BLOCK_LENGTH + 1
    }
}

// How many bytes complete the block that so many bytes begin: none where there are none.
fn missing(held: usize) -> usize
    requires { held < 204 }
    ensures { result ≡ (204 - held) % 204 }
{
    (Receiver::BLOCK_LENGTH - held) % Receiver::BLOCK_LENGTH
}

// Takes the block that the bytes held begin, where there are any, with the bytes that complete it.
fn finish_block(stream: ReceiverStream, filler: &[u8], marks: &[u8], output: &mut [u8]) -> Recorded
    requires { (stream.held < 204)
        × (length filler.now ≡ (204 - stream.held) % 204)
        × (length marks.now ≡ length filler.now)
        × (188 * ((stream.held + length filler.now) / 204) ≤ length output.old) }
    ensures { TakesRecording stream.receiver (bytes_held stream ++ filler.now) (held_marks stream ++ marks.now) output.old result.count result.receiver output.new }
{
    let held = stream.held;
    if held == 0 {
        return Recorded {
            count: 0,
            receiver: stream.receiver,
        };
    }
    let block = joined::<204>(&stream.pending[..held], filler);
    let own = joined::<204>(&stream.marks[..held], marks);
    recording::receive_marked_blocks(stream.receiver, &block, &own, output)
}

// Takes a piece that completes at least one block. Piece, marks and room stay three lists, as the C call gives them. Only a block that two pieces share is copied; the others are taken where they stand.
fn take_blocks(stream: ReceiverStream, piece: &[u8], marks: &[u8], output: &mut [u8]) -> ReceiverFed
    requires { (stream.held < 204)
        × (204 ≤ stream.held + length piece.now)
        × (length marks.now ≡ length piece.now)
        × (188 * ((stream.held + length piece.now) / 204) ≤ length output.old) }
    ensures { ReceivesPiece stream piece.now marks.now output.old result.count result.stream output.new }
{
    let start = missing(stream.held);
    let first = finish_block(stream, &piece[..start], &marks[..start], output);
    let written = first.count;
    let middle = first.receiver;
    let batch = recording::receive_marked_blocks(
        middle,
        &piece[start..],
        &marks[start..],
        &mut output[written..],
    );
    let receiver = batch.receiver;
    let count = written + batch.count;
    let rest = (piece.len() - start) % Receiver::BLOCK_LENGTH;
    let end = piece.len() - rest;
    let pending = joined(&[0u8; 0], &piece[end..]);
    let marks = joined(&[0u8; 0], &marks[end..]);
    ReceiverFed {
        count,
        stream: ReceiverStream {
            receiver,
            pending,
            marks,
            held: rest,
        },
    }
}

// Takes a piece.
fn take_piece(stream: ReceiverStream, piece: &[u8], marks: &[u8], output: &mut [u8]) -> ReceiverFed
    requires { (stream.held < 204)
        × (length marks.now ≡ length piece.now)
        × (188 * ((stream.held + length piece.now) / 204) ≤ length output.old) }
    ensures { ReceivesPiece stream piece.now marks.now output.old result.count result.stream output.new }
{
    let held = stream.held;
    if piece.len() < Receiver::BLOCK_LENGTH - held {
        let pending = joined(&stream.pending[..held], piece);
        let marks = joined(&stream.marks[..held], marks);
        return ReceiverFed {
            count: 0,
            stream: ReceiverStream {
                receiver: stream.receiver,
                pending,
                marks,
                held: held + piece.len(),
            },
        };
    }
    take_blocks(stream, piece, marks, output)
}

// The report on these counts, in form 2, with so many bytes after the last whole block.
pub fn report_of(counts: Counts, rest: u64) -> Report
    ensures { result ≡ report_of counts rest }
{
    Report {
        taken: counts.taken,
        filling: counts.filling,
        delivered: counts.delivered,
        lost: counts.lost,
        waiting: counts.waiting,
        outofstep: counts.outofstep,
        changed: counts.changed,
        bits: Bits::Number(counts.bits),
        rest,
    }
}

impl ReceiverStream {
    // A fresh receiver, and no byte.
    pub fn new() -> ReceiverStream
        ensures { result ≡ fresh_receiver_stream }
    {
        ReceiverStream {
            receiver: Receiver::new(),
            pending: [0; 204],
            marks: [0; 204],
            held: 0,
        }
    }

    // Whether each number is in its range.
    pub fn in_range(self) -> bool
        ensures { result ≡ receiver_stream_in_range self }
    {
        self.receiver.in_range() && self.held < Receiver::BLOCK_LENGTH
    }

    // How many bytes more can be taken: those of the blocks that can be counted. None where a number is out of range.
    pub fn capacity(self) -> u64
        ensures { result ≡ pick (receiver_stream_in_range self) (capacity_of self) 0 }
    {
        if !self.in_range() {
            return 0;
        }
        (204 * (Counts::MOST - self.receiver.counts.taken)).saturating_sub(self.held as u64)
    }

    // How many bytes came after the last whole block: 0 to 203.
    pub fn rest(self) -> u64
        ensures { result ≡ self.held }
    {
        self.held as u64
    }

    // Takes a piece of the received bytes, of any length, with a mark for each, and writes the packets of the blocks that are whole then.
    // In line, so that a caller gets no Result that holds a stream, which would be laid out with zeros.
    #[inline(always)]
    pub fn feed(self, piece: &[u8], marks: &[u8], output: &mut [u8]) -> Result<ReceiverFed, Refusal>
        ensures { FeedsReceiver self piece.now marks.now output.old (answered result) (given_or 0 (λ s. s.count) result) (given_or self (λ s. s.stream) result) output.new }
    {
        if !self.in_range() {
            return Err(Refusal::StateRange);
        }
        if !recording::are_marks_for(piece, marks) {
            return Err(Refusal::MarkValue);
        }
        if output.len() < Receiver::PACKET_LENGTH * whole_blocks(self.held, piece.len()) {
            return Err(Refusal::OutputLength);
        }
        if self.capacity() < piece.len() as u64 {
            return Err(Refusal::CountsFull);
        }
        Ok(take_piece(self, piece, marks, output))
    }

    // Writes the pass report of all that came. Gives how many bytes were written.
    pub fn report(self, output: &mut [u8]) -> Result<usize, Refusal>
        ensures { Reports self output.old (answered result) (given_or 0 (λ n. n) result) output.new }
    {
        if !self.in_range() {
            return Err(Refusal::StateRange);
        }
        report::write_report(report_of(self.receiver.counts, self.held as u64), output)
    }
}
