// What to ask for again: the list of a recording's losses. A line for each block of which no packet was given, and for each packet whose place in
// its group is in doubt, as numbers. It is decided by the receiver's own calls.
#![tactic(auto)]

ghost use Rattle.std.specs.Prelude.{◌≡◌, ◌++◌, ◌⊎◌, ◌+◌, ◌-◌, ◌/◌, ◌≤◌, ◌<◌, min, length, take, drop};
ghost use Rattle.common.specs.Choice.{pick};
ghost use Rattle.answer.specs.Number.{answered, given_or};
ghost use Rattle.receiver.specs.Receive.{ReceivesMarked};
ghost use Rattle.losses.specs.List.{line as List·line, doubts};
ghost use Rattle.losses.specs.Watch.{waiting_of, start_due_at, started_at, lines_now, and_one_more, certainty_next, most_waiting, certainty_in_range};
ghost use Rattle.losses.specs.Feed.{fresh_loss_stream, loss_stream_in_range, capacity_of, marks_of, marks_fit, WritesLines, FeedsLosses, end_number, lines_at_end, loss_close_number, close_lines};
ghost use Rattle.losses.specs.Block.{marks_front, Watched, TakesBlock, PartReady, PieceReady, TakesLines};
ghost use Rattle.losses.specs.Run.{ListsRecording};

use answer::Refusal;
use group_sync::GroupSync;
use receiver::{Receiver, answer_number, receive_in_place};
use reception_counts::Counts;

// What is known of the places of the packets that were given. Both cases have a meaning of their own, and None would not tell which it is.
#[derive(Clone, Copy)]
pub enum Certainty {
    // B8 fixed the place, and every block since was given.
    Sure,
    // A block was not given, or none came, and no B8 since. So many packets before the next block wait for a sync byte that can tell.
    Unsure(u8),
}

// A receiver, what is known of the places, and the bytes after the last whole block with their marks: how many, and the fronts of arrays that have
// them, since no memory is taken for them.
#[derive(Clone, Copy)]
pub struct LossStream {
    pub receiver: Receiver,
    pub certainty: Certainty,
    pub pending: [u8; 204],
    pub marks: [u8; 204],
    pub held: usize,
}

// How many lines were written, and the stream after it.
#[derive(Clone, Copy)]
pub struct LossesFed {
    pub count: usize,
    pub stream: LossStream,
}

// How many lines were written, and what is known after a block.
#[derive(Clone, Copy)]
struct Decided {
    certainty: Certainty,
    count: usize,
}

// The number of the answer of a call of the receiver, the receiver after it, what is known of the places, and how many lines were written.
#[derive(Clone, Copy)]
pub struct BlockTaken {
    pub number: u8,
    pub receiver: Receiver,
    pub certainty: Certainty,
    pub count: usize,
}

// How many packets wait.
pub fn waiting(certainty: Certainty) -> u8
    ensures { result ≡ waiting_of certainty }
{
    match certainty {
        Certainty::Sure => 0,
        Certainty::Unsure(n) => n,
    }
}

// What is known after a packet at another place than the first of a group. That at most seven wait stays a fact: the number of `Unsure` is public, and
// `in_range` tests it.
fn one_more(certainty: Certainty) -> Certainty
    requires { waiting_of certainty ≤ 7 }
    ensures { result ≡ and_one_more certainty }
{
    match certainty {
        Certainty::Sure => Certainty::Sure,
        Certainty::Unsure(n) => Certainty::Unsure(n + 1),
    }
}

// Whether B8 is due.
pub fn start_due(place: Option<u8>) -> bool
    ensures { result ≡ start_due_at place }
{
    place == Some(0)
}

// Whether a packet that was given began with B8, by the place behind it.
pub fn started(place: Option<u8>) -> bool
    ensures { result ≡ started_at place }
{
    place == Some(1)
}

// How many packets can wait.
fn most_waiting(place: Option<u8>) -> u8
    ensures { result ≡ most_waiting place }
{
    match place {
        None => 0,
        Some(p) => (p % GroupSync::GROUP_LENGTH + 7) % GroupSync::GROUP_LENGTH,
    }
}

// The number of the block that the receiver's next call corrects, which is 0 while the delays fill.
fn next_block(taken: u64) -> u64
    ensures { result ≡ taken - 11 }
{
    taken.saturating_sub(11)
}

// Whether no more packets wait than can.
pub fn certainty_in_range(certainty: Certainty, place: Option<u8>, taken: u64) -> bool
    ensures { result ≡ certainty_in_range certainty place taken }
{
    let count = waiting(certainty);
    count <= most_waiting(place) && count as u64 <= next_block(taken)
}

// A line: the block, and its answer.
fn line(block: u64, answer: u8) -> u64
    requires { block ≤ 4294967295 }
    ensures { result ≡ List·line block answer }
{
    16 * block + answer as u64
}

// Writes a line for each of so many packets in doubt, from a block on.
fn put_doubts(block: u64, count: usize, lines: &mut [u64])
    requires { (block + count ≤ 4294967295) × (count ≤ length lines.old) }
    ensures { lines.new ≡ doubts block count ++ drop count lines.old }
{
    for i in 0..count {
        lines[i] = line(block + i as u64, 0);
    }
}

// Writes the lines that a block decides.
fn decide(
    certainty: Certainty,
    block: u64,
    number: u8,
    due: bool,
    start: bool,
    lines: &mut [u64],
) -> Decided
    requires { (waiting_of certainty ≤ 7)
        × (waiting_of certainty ≤ block)
        × (block ≤ 4294967295)
        × (waiting_of certainty < length lines.old) }
    ensures { (result.certainty ≡ certainty_next certainty number start)
        × WritesLines (lines_now certainty block number due start) lines.old result.count lines.new }
{
    let count = waiting(certainty) as usize;
    let first = block - count as u64;
    if number != 0 {
        put_doubts(first, count, lines);
        lines[count] = line(block, number);
        return Decided {
            certainty: Certainty::Unsure(0),
            count: count + 1,
        };
    }
    if !start {
        return Decided {
            certainty: one_more(certainty),
            count: 0,
        };
    }
    if due {
        return Decided {
            certainty: Certainty::Sure,
            count: 0,
        };
    }
    put_doubts(first, count, lines);
    Decided {
        certainty: Certainty::Sure,
        count,
    }
}

// A call of the receiver, which is changed in place: the number of its answer. A Result that held the receiver would be laid out with zeros in each call.
fn call_receiver(receiver: &mut Receiver, block: &[u8], marks: &[u8], output: &mut [u8]) -> u8
    ensures { ReceivesMarked receiver.old block.now marks.now output.old result receiver.new output.new }
{
    let most = common::largest_of(&receiver.marks);
    let valid = receiver.in_range();
    answer_number(receive_in_place(receiver, valid, most == 0, block, marks, output))
}

// Takes a block with its marks by a call of the receiver, which writes a packet to the output, and writes the lines that it decides.
pub fn take_block(
    receiver: Receiver,
    certainty: Certainty,
    block: &[u8],
    marks: &[u8],
    output: &mut [u8],
    lines: &mut [u64],
) -> BlockTaken
    requires { Watched receiver certainty × (waiting_of certainty < length lines.old) × (188 ≤ length output.old) }
    ensures { TakesBlock receiver certainty block.now marks.now output.old lines.old result.number result.count result.receiver result.certainty output.new lines.new }
{
    let mut next = receiver;
    let due = start_due(next.sync.place);
    let taken = next.counts.taken;
    let number = call_receiver(&mut next, block, marks, output);
    if taken < 11 {
        return BlockTaken {
            number,
            receiver: next,
            certainty,
            count: 0,
        };
    }
    let start = started(next.sync.place);
    let decided = decide(certainty, taken - 11, number, due, start, lines);
    BlockTaken {
        number,
        receiver: next,
        certainty: decided.certainty,
        count: decided.count,
    }
}

// Ends the list: writes a line for each packet that still waits, in doubt.
pub fn tell_waiting(certainty: Certainty, taken: u64, lines: &mut [u64]) -> Result<usize, Refusal>
    requires { (waiting_of certainty ≤ 7) × (waiting_of certainty ≤ taken - 11) × (taken ≤ 4294967295) }
    ensures { (answered result ≡ end_number certainty lines.old)
        × WritesLines (lines_at_end certainty taken lines.old) lines.old (given_or 0 (λ n. n) result) lines.new }
{
    let count = waiting(certainty) as usize;
    if lines.len() < count {
        return Err(Refusal::OutputLength);
    }
    put_doubts(next_block(taken) - count as u64, count, lines);
    Ok(count)
}

// Takes the part of a piece that at most completes a block, with a mark for each byte.
fn take_part(stream: LossStream, part: &[u8], marks: &[u8], lines: &mut [u64]) -> LossesFed
    requires { PartReady stream part.now marks.now lines.old }
    ensures { TakesLines stream part.now marks.now lines.old result.count result.stream lines.new }
{
    let receiver = stream.receiver;
    let certainty = stream.certainty;
    let mut pending = stream.pending;
    let mut own = stream.marks;
    let held = stream.held;
    common::put(part, held, &mut pending);
    common::put(marks, held, &mut own);
    let end = held + part.len();
    if end < Receiver::BLOCK_LENGTH {
        return LossesFed {
            count: 0,
            stream: LossStream {
                receiver,
                certainty,
                pending,
                marks: own,
                held: end,
            },
        };
    }
    let mut output = [0u8; Receiver::PACKET_LENGTH];
    let taken = take_block(receiver, certainty, &pending, &own, &mut output, lines);
    let next = taken.receiver;
    let kept = taken.certainty;
    LossesFed {
        count: taken.count,
        stream: LossStream {
            receiver: next,
            certainty: kept,
            pending,
            marks: own,
            held: 0,
        },
    }
}

// The marks of so many bytes from a place on: 0 where none come.
fn marks_at(marks: &[u8], at: usize, size: usize) -> [u8; 204]
    requires { (size ≤ 204) × ((length marks.now ≡ 0) ⊎ (at + size ≤ length marks.now)) }
    ensures { result ≡ marks_front (take size (drop at marks.now)) }
{
    if marks.is_empty() {
        return [0u8; 204];
    }
    let end = at + size;
    common::joined(&marks[at..end], &[0u8; 0])
}

// How many of the bytes that are left go to the block that so many bytes begin.
fn part_length(held: usize, left: usize) -> usize
    requires { held < 204 }
    ensures { result ≡ min (204 - held) left }
{
    (Receiver::BLOCK_LENGTH - held).min(left)
}

// Takes a piece, with a mark for each byte or none at all.
fn take_piece(stream: LossStream, piece: &[u8], marks: &[u8], lines: &mut [u64]) -> LossesFed
    requires { PieceReady stream piece.now marks.now lines.old }
    ensures { TakesLines stream piece.now (marks_of piece.now marks.now) lines.old result.count result.stream lines.new }
{
    let mut state = stream;
    let mut at: usize = 0;
    let mut count: usize = 0;
    // A `while`: each turn takes as many bytes as complete a block.
    while at < piece.len() {
        let size = part_length(state.held, piece.len() - at);
        let end = at + size;
        let own = marks_at(marks, at, size);
        let taken = take_part(state, &piece[at..end], &own[..size], &mut lines[count..]);
        count += taken.count;
        state = taken.stream;
        at = end;
    }
    LossesFed {
        count,
        stream: state,
    }
}

// Whether no marks come, or a mark, 0 or 1, for each byte.
fn marks_fit(piece: &[u8], marks: &[u8]) -> bool
    ensures { result ≡ marks_fit piece.now marks.now }
{
    marks.is_empty() || recording::are_marks_for(piece, marks)
}

// How many blocks are whole with so many bytes held and so many that come.
fn blocks_in(held: usize, length: usize) -> usize
    requires { held < 204 }
    ensures { result ≡ (held + length) / 204 }
{
    length / Receiver::BLOCK_LENGTH
        + (length % Receiver::BLOCK_LENGTH + held) / Receiver::BLOCK_LENGTH
}

impl LossStream {
    // A fresh receiver, no byte, and no packet that waits.
    pub fn new() -> LossStream
        ensures { result ≡ fresh_loss_stream }
    {
        LossStream {
            receiver: Receiver::new(),
            certainty: Certainty::Unsure(0),
            pending: [0; 204],
            marks: [0; 204],
            held: 0,
        }
    }

    // Whether each number is in its range.
    pub fn in_range(self) -> bool
        ensures { result ≡ loss_stream_in_range self }
    {
        if !self.receiver.in_range() {
            return false;
        }
        if self.held >= Receiver::BLOCK_LENGTH {
            return false;
        }
        if common::largest_of(&self.marks[..self.held]) >= 2 {
            return false;
        }
        certainty_in_range(
            self.certainty,
            self.receiver.sync.place,
            self.receiver.counts.taken,
        )
    }

    // How many bytes more can be taken: those of the blocks that can be counted. None where a number is out of range.
    pub fn capacity(self) -> u64
        ensures { result ≡ pick (loss_stream_in_range self) (capacity_of self) 0 }
    {
        if !self.in_range() {
            return 0;
        }
        (204 * (Counts::MOST - self.receiver.counts.taken)).saturating_sub(self.held as u64)
    }

    // Takes a piece of the received bytes, of any length, with a mark for each or none at all, and writes the lines that are decided then.
    // In line, so that a caller gets no Result that holds a stream, which would be laid out with zeros.
    #[inline(always)]
    pub fn feed(self, piece: &[u8], marks: &[u8], lines: &mut [u64]) -> Result<LossesFed, Refusal>
        ensures { FeedsLosses self piece.now marks.now lines.old (answered result) (given_or 0 (λ s. s.count) result) (given_or self (λ s. s.stream) result) lines.new }
    {
        if !self.in_range() {
            return Err(Refusal::StateRange);
        }
        if !marks_fit(piece, marks) {
            return Err(Refusal::MarkValue);
        }
        if lines.len() < waiting(self.certainty) as usize + blocks_in(self.held, piece.len()) {
            return Err(Refusal::OutputLength);
        }
        if self.capacity() < piece.len() as u64 {
            return Err(Refusal::CountsFull);
        }
        Ok(take_piece(self, piece, marks, lines))
    }

    // Ends the list: the packets that still wait are in doubt. How many lines were written.
    pub fn close(self, lines: &mut [u64]) -> Result<usize, Refusal>
        ensures { (answered result ≡ loss_close_number self lines.old)
            × WritesLines (close_lines self lines.old) lines.old (given_or 0 (λ n. n) result) lines.new }
    {
        if !self.in_range() {
            return Err(Refusal::StateRange);
        }
        tell_waiting(self.certainty, self.receiver.counts.taken, lines)
    }
}

// The list of a whole recording, with a mark for each byte or none at all: how many lines were written.
pub fn list_losses(bytes: &[u8], marks: &[u8], lines: &mut [u64]) -> Result<usize, Refusal>
    ensures { ListsRecording bytes.now marks.now lines.old (answered result) (given_or 0 (λ n. n) result) lines.new }
{
    let fed = LossStream::new().feed(bytes, marks, lines)?;
    let told = fed.stream.close(&mut lines[fed.count..])?;
    Ok(fed.count + told)
}
