// A receiver for one lock: a fresh one for each, whose packets in doubt wait for the B8 that confirms them. The rule is that of crate losses: a packet that
// its list has as doubtful is not given but told.
#![tactic(auto)]

ghost use Rattle.std.specs.Prelude.{◌≡◌, false, ◌≤◌, length};
ghost use Rattle.answer.specs.Number.{answered, given_or};
ghost use Rattle.losses.specs.Watch.{waiting_of, is_sure, and_one_more};
ghost use Rattle.losses.specs.Feed.{WritesLines};
ghost use Rattle.lock_receiver.specs.Take.{fresh_lock, lock_in_range, Settles, LockReady, TakesOne, TakesBlock, lock_end_number, lock_end_lines};

use answer::Refusal;
use common::put;
use losses::Certainty;
use receiver::Receiver;
use reception_counts::Counts;

// A receiver, what is known of the places of its packets, and the packets that wait, one after the other at the front of an array.
#[derive(Clone, Copy)]
pub struct LockReceiver {
    pub receiver: Receiver,
    pub certainty: Certainty,
    pub packets: [u8; 1316],
}

// The number of what the block came to, how many packets were given, how many lines were told, and the value after it.
#[derive(Clone, Copy)]
pub struct LockStep {
    pub number: u8,
    pub given: usize,
    pub told: usize,
    pub lock: LockReceiver,
}

// The packets that wait, and how many were given.
#[derive(Clone, Copy)]
struct Settled {
    packets: [u8; 1316],
    given: usize,
}

// Whether B8 fixed the place, and every block since was given.
fn is_sure(certainty: Certainty) -> bool
    ensures { result ≡ is_sure certainty }
{
    matches!(certainty, Certainty::Sure)
}

// Gives the packets that a block confirms and its own, or keeps its own with those that wait.
fn settle(
    certainty: Certainty,
    number: u8,
    due: bool,
    start: bool,
    packet: &[u8],
    held: [u8; 1316],
    output: &mut [u8],
) -> Settled
    requires { (waiting_of certainty ≤ 7)
        × (number ≡ 0 → start ≡ false → waiting_of (and_one_more certainty) ≤ 7)
        × (length packet.now ≡ 188)
        × (1504 ≤ length output.old) }
    ensures { Settles certainty number due start packet.now held output.old result.packets result.given output.new }
{
    let count = losses::waiting(certainty) as usize;
    let size = Receiver::PACKET_LENGTH * count;
    let mut packets = held;
    if number != 0 {
        return Settled { packets, given: 0 };
    }
    if start {
        if due {
            put(&held[..size], 0, output);
            put(packet, size, output);
            return Settled {
                packets,
                given: count + 1,
            };
        }
        put(packet, 0, output);
        return Settled { packets, given: 1 };
    }
    if is_sure(certainty) {
        put(packet, 0, output);
        return Settled { packets, given: 1 };
    }
    put(packet, size, &mut packets);
    Settled { packets, given: 0 }
}

// Takes a block by a call of the receiver, and gives and tells what it decides.
fn take_block(lock: LockReceiver, block: &[u8], output: &mut [u8], lines: &mut [u64]) -> LockStep
    requires { LockReady lock block.now output.old lines.old }
    ensures { TakesOne lock block.now output.old lines.old result output.new lines.new }
{
    let certainty = lock.certainty;
    let due = losses::start_due(lock.receiver.sync.place);
    let none = [0u8; Receiver::BLOCK_LENGTH];
    let mut packet = [0u8; Receiver::PACKET_LENGTH];
    let taken = losses::take_block(lock.receiver, certainty, block, &none, &mut packet, lines);
    let number = taken.number;
    let start = losses::started(taken.receiver.sync.place);
    let settled = settle(certainty, number, due, start, &packet, lock.packets, output);
    let packets = settled.packets;
    LockStep {
        number,
        given: settled.given,
        told: taken.count,
        lock: LockReceiver {
            receiver: taken.receiver,
            certainty: taken.certainty,
            packets,
        },
    }
}

impl LockReceiver {
    // The bytes of the most packets that a block gives: the seven that wait, and its own.
    pub const OUTPUT_LENGTH: usize = 1504;

    // The most lines that a block tells: one for each packet that waits, and its own.
    pub const LINES: usize = 8;

    // A fresh receiver, and no packet that waits.
    pub fn new() -> LockReceiver
        ensures { result ≡ fresh_lock }
    {
        LockReceiver {
            receiver: Receiver::new(),
            certainty: Certainty::Unsure(0),
            packets: [0; 1316],
        }
    }

    // Whether each number is in its range.
    pub fn in_range(self) -> bool
        ensures { result ≡ lock_in_range self }
    {
        self.receiver.in_range()
            && losses::certainty_in_range(
                self.certainty,
                self.receiver.sync.place,
                self.receiver.counts.taken,
            )
    }

    // Takes a block of 204 interleaved bytes, and writes the packets that it gives and the lines that it tells.
    pub fn take(
        self,
        block: &[u8],
        output: &mut [u8],
        lines: &mut [u64],
    ) -> Result<LockStep, Refusal>
        ensures { TakesBlock self block.now output.old lines.old result output.new lines.new }
    {
        if !self.in_range() {
            return Err(Refusal::StateRange);
        }
        if block.len() != Receiver::BLOCK_LENGTH {
            return Err(Refusal::BlockLength);
        }
        if output.len() < LockReceiver::OUTPUT_LENGTH {
            return Err(Refusal::OutputLength);
        }
        if lines.len() < LockReceiver::LINES {
            return Err(Refusal::OutputLength);
        }
        if self.receiver.counts.taken >= Counts::MOST {
            return Err(Refusal::CountsFull);
        }
        Ok(take_block(self, block, output, lines))
    }

    // The end of the lock: a line for each packet that still waits, in doubt. How many lines were written.
    pub fn end(self, lines: &mut [u64]) -> Result<usize, Refusal>
        ensures { (answered result ≡ lock_end_number self lines.old)
            × WritesLines (lock_end_lines self lines.old) lines.old (given_or 0 (λ n. n) result) lines.new }
    {
        if !self.in_range() {
            return Err(Refusal::StateRange);
        }
        losses::tell_waiting(self.certainty, self.receiver.counts.taken, lines)
    }
}
