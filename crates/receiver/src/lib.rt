// The receiving chain: interleaved blocks in, transport packets out. EN 300 421, 4.4, taken backwards.
#![tactic(auto)]

ghost use Rattle.std.specs.Prelude.{◌≡◌, true, false, ◌≤◌, ltb, length, replicate, OnErr};
ghost use Rattle.common.specs.Choice.{pick};
ghost use Rattle.common.specs.Lists.{largest};
ghost use Rattle.answer.specs.Number.{given_or};
ghost use Rattle.group_sync.specs.Group.{sync_in_range, PlaceOf};
ghost use Rattle.reception_counts.specs.Counts.{counts_in_range, outcome_number};
ghost use Rattle.reed_solomon.specs.Marks.{no_marks, DecodesMarked};
ghost use Rattle.interleaver.specs.Branch as branch;
ghost use Rattle.interleaver.specs.Block.{block_out, branches_after};
ghost use Rattle.receiver.specs.Receive.{fresh_receiver, receiver_in_range, decoding_of, output_after, NoMarks, Ready, ReceivesMarked, Receives, taken_number, received_number};

use answer::Refusal;
use group_sync::{GroupSync, Outcome};
use interleaver::Deinterleaver;
use interleaver::branches::{Side, pass_cells, positions_within};
use reception_counts::{Counts, count, outcome_number};
use reed_solomon::Changed;

// A receiver: the delay branches, the marks of the bytes in them, cell by cell, the place in the group, and the counts.
#[derive(Clone, Copy)]
pub struct Receiver {
    pub deinterleaver: Deinterleaver,
    pub marks: [u8; 1122],
    pub sync: GroupSync,
    pub counts: Counts,
}

// What a block taken came to, and the receiver after it.
#[derive(Clone, Copy)]
pub struct Received {
    pub outcome: Outcome,
    pub receiver: Receiver,
}

// The first byte of the codeword that decoding left, if it left one.
fn codeword_of(decoded: Result<Changed, Refusal>, first: u8) -> Option<u8>
    ensures { result ≡ decoding_of decoded first }
{
    match decoded {
        Ok(_) => Some(first),
        Err(_) => None,
    }
}

// Writes the packet that a block came to, if it is one, to the output.
fn deliver(outcome: Outcome, left: &[u8], output: &mut [u8])
    requires { (PlaceOf outcome) × (length left.now ≡ 204) × (188 ≤ length output.old) }
    ensures { output.new ≡ output_after outcome left.now output.old }
{
    if let Outcome::Delivered(place) = outcome {
        let _ = randomizer::derandomize(place, &left[..Receiver::PACKET_LENGTH], output);
    }
}

// The marks of a block through the delay branches, as its bytes go: by the same positions, in cells of their own.
// Where no mark comes and none is in the cells, none leaves, and the cells stay.
fn delay_marks(cells: &mut [u8], positions: [u8; 12], marks: &[u8], none: bool, output: &mut [u8])
    requires { (branch.positions_within Side.Receiving positions 12 ≡ true)
        × (length cells.old ≡ 1122)
        × (length marks.now ≡ 204)
        × (output.old ≡ no_marks)
        × (none ≡ true → (cells.old ≡ replicate 1122 0) × (marks.now ≡ no_marks)) }
    ensures { (cells.new ≡ (branches_after Side.Receiving (branch.laid cells.old positions) marks.now).cells)
        × (output.new ≡ block_out Side.Receiving (branch.laid cells.old positions) marks.now) }
{
    if none {
        return;
    }
    pass_cells(Side::Receiving, cells, positions, marks, output);
}

// Decodes a block with its marks. Without any it costs what decoding without marks does.
fn decode_block(block: &mut [u8], marks: &[u8], none: bool) -> Result<Changed, Refusal>
    requires { none ≡ true → marks.now ≡ no_marks }
    ensures { DecodesMarked marks.now block.old block.new result }
{
    if none {
        return reed_solomon::decode(block);
    }
    reed_solomon::decode_marked(block, marks)
}

// Takes a block with its marks; none says that no mark comes and none is in the delays. A flag and no second function, since all else is the same.
fn take_block(
    receiver: &mut Receiver,
    block: &[u8],
    marks: &[u8],
    none: bool,
    output: &mut [u8],
) -> Outcome
    requires { Ready receiver.old block.now marks.now output.old
        × (none ≡ true → NoMarks receiver.old × (marks.now ≡ no_marks)) }
    ensures { ReceivesMarked receiver.old block.now marks.now output.old (outcome_number result) receiver.new output.new }
{
    let positions = receiver.deinterleaver.branches.positions;
    let mut delayed = [0u8; Receiver::BLOCK_LENGTH];
    let moved = pass_cells(
        Side::Receiving,
        &mut receiver.deinterleaver.branches.cells,
        positions,
        block,
        &mut delayed,
    );
    receiver.deinterleaver.branches.positions = moved;
    let mut erased = [0u8; Receiver::BLOCK_LENGTH];
    delay_marks(&mut receiver.marks, positions, marks, none, &mut erased);
    if receiver.counts.taken < 11 {
        receiver.counts = count(receiver.counts, Outcome::Filling, 0, 0);
        return Outcome::Filling;
    }
    let decoded = decode_block(&mut delayed, &erased, none);
    let step = receiver.sync.step(codeword_of(decoded, delayed[0]));
    let changed = decoded.unwrap_or(Changed::NONE);
    receiver.sync = step.sync;
    receiver.counts = count(
        receiver.counts,
        step.outcome,
        changed.bytes as u64,
        changed.bits as u64,
    );
    deliver(step.outcome, &delayed, output);
    step.outcome
}

// Whether no mark comes, where clean says that none is in the delays. Where it does not, the marks are not looked at.
fn none_at_all(clean: bool, marks: &[u8]) -> bool
    ensures { result ≡ true → (clean ≡ true) × (largest marks.now ≡ 0) }
{
    clean && common::largest_of(marks) == 0
}

// Takes a block with its marks. The receiver is changed in place, so that no state is copied.
// valid says whether the receiver is in range, and clean that no mark is in the delays: a caller that takes many blocks tests that once.
pub fn receive_in_place(
    receiver: &mut Receiver,
    valid: bool,
    clean: bool,
    block: &[u8],
    marks: &[u8],
    output: &mut [u8],
) -> Result<Outcome, Refusal>
    requires { (valid ≡ receiver_in_range receiver.old) × (clean ≡ true → NoMarks receiver.old) }
    ensures received { ReceivesMarked receiver.old block.now marks.now output.old (taken_number result) receiver.new output.new }
    ensures refused { OnErr result (receiver.new ≡ receiver.old) }
{
    if !valid {
        return Err(Refusal::StateRange);
    }
    if block.len() != Receiver::BLOCK_LENGTH {
        return Err(Refusal::BlockLength);
    }
    if !reed_solomon::are_marks(marks) {
        return Err(Refusal::MarkValue);
    }
    if output.len() < Receiver::PACKET_LENGTH {
        return Err(Refusal::OutputLength);
    }
    if receiver.counts.taken >= Counts::MOST {
        return Err(Refusal::CountsFull);
    }
    let none = none_at_all(clean, marks);
    Ok(take_block(receiver, block, marks, none, output))
}

// The number of a call's answer: that of what the block taken came to, or of the refusal.
pub fn answer_number(taken: Result<Outcome, Refusal>) -> u8
    ensures { result ≡ taken_number taken }
{
    match taken {
        Ok(outcome) => outcome_number(outcome),
        Err(refusal) => refusal.number(),
    }
}

// Whether the positions are within their branches, the largest of the marks in the delays is a mark, and the place and the counts are in range.
// By its parts, so that no state is copied.
fn parts_in_range(positions: [u8; 12], most: u8, sync: GroupSync, counts: Counts) -> bool
    ensures { result ≡ pick (branch.positions_within Side.Receiving positions 12) (pick (ltb most 2) (pick (sync_in_range sync) (counts_in_range counts) false) false) false }
{
    positions_within(Side::Receiving, positions) && most < 2 && sync.in_range() && counts.in_range()
}

impl Receiver {
    // The bytes of a packet.
    pub const PACKET_LENGTH: usize = 188;

    // The bytes of a block.
    pub const BLOCK_LENGTH: usize = 204;

    // All cells, marks and counts 0, the place not known.
    pub fn new() -> Receiver
        ensures { result ≡ fresh_receiver }
    {
        Receiver {
            deinterleaver: Deinterleaver::new(),
            marks: [0u8; 1122],
            sync: GroupSync::new(),
            counts: Counts::new(),
        }
    }

    // Whether each number is in its range.
    pub fn in_range(self) -> bool
        ensures { result ≡ receiver_in_range self }
    {
        parts_in_range(
            self.deinterleaver.branches.positions,
            common::largest_of(&self.marks),
            self.sync,
            self.counts,
        )
    }

    // Takes a block of 204 interleaved bytes with a mark, 0 or 1, for each, and writes the packet that it completes.
    pub fn receive_marked(
        self,
        block: &[u8],
        marks: &[u8],
        output: &mut [u8],
    ) -> Result<Received, Refusal>
        ensures { ReceivesMarked self block.now marks.now output.old (received_number result) (given_or self (λ r. r.receiver) result) output.new }
    {
        let mut receiver = self;
        let most = common::largest_of(&receiver.marks);
        let valid = parts_in_range(
            receiver.deinterleaver.branches.positions,
            most,
            receiver.sync,
            receiver.counts,
        );
        let outcome = receive_in_place(&mut receiver, valid, most == 0, block, marks, output)?;
        Ok(Received { outcome, receiver })
    }

    // The same without marks: where none come they are 0. Those that are still in the delays act.
    pub fn receive(self, block: &[u8], output: &mut [u8]) -> Result<Received, Refusal>
        ensures { Receives self block.now output.old (received_number result) (given_or self (λ r. r.receiver) result) output.new }
    {
        self.receive_marked(block, &[0u8; Receiver::BLOCK_LENGTH], output)
    }
}
