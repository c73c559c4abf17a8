// Blocks from decoded bits that begin anywhere, straight or inverted: the same decisions, with no symbols to read.
ghost use Rattle.std.specs.Prelude.{◌≡◌, ◌+◌, ◌<◌, ◌≤◌, length};
ghost use Rattle.acquisition.specs.Bits.{BitsReady, bits_found, StepsBits, BitCounts, EndsBits, BitEndCounts};

use crate::{Event, FoundBlock, event_of, last_event, turn_told, used_by};
use block_sync::{BlockSync, SyncStep};

// The blocks in progress, how many bits the decisions on them used up, and how many came in all.
#[derive(Clone, Copy)]
pub struct BitSource {
    pub sync: BlockSync,
    pub used: u64,
    pub came: u64,
}

// The source after it, how many bits of the piece were taken, and what happened. The numbers of a block count bits, and its turn is 0, or 2 where the bits are
// inverted.
#[derive(Clone, Copy)]
pub struct BitStep {
    pub source: BitSource,
    pub taken: usize,
    pub event: Event,
}

// The same after the last piece: where that was all, how many bits are behind the last block.
#[derive(Clone, Copy)]
pub struct BitEnd {
    pub source: BitSource,
    pub event: Event,
    pub over: Option<usize>,
}

// The block that a decision gave, if it gave one, where so many bits were used before it.
fn bits_found(used: u64, decided: SyncStep) -> Option<FoundBlock>
    requires { (used < 4611686018427387904) × (decided.skipped ≤ 8168) }
    ensures { result ≡ bits_found used decided }
{
    let given = decided.block?;
    let bytes = given.bytes;
    let start = used + decided.skipped as u64;
    Some(FoundBlock {
        begins: given.begins,
        rate: 0,
        turn: turn_told(0, decided.sync.lock.inverted),
        start,
        end: start + 1632,
        bytes,
    })
}

impl BitSource {
    // Takes bits of a piece: as many as one decision needs, or all.
    pub fn step(self, piece: &[u8]) -> BitStep
        requires { (BitsReady self) × (self.came + length piece.now < 1152921504606846976) }
        ensures { (StepsBits self piece.now result) × (BitsReady result.source) × (BitCounts self piece.now result) }
    {
        let Ok(decided) = self.sync.feed(piece) else {
            unreachable!()
        };
        let found = bits_found(self.used, decided);
        let event = event_of(found, decided.skipped);
        let more = used_by(decided);
        BitStep {
            source: BitSource {
                sync: decided.sync,
                used: self.used + more,
                came: self.came + decided.taken as u64,
            },
            taken: decided.taken,
            event,
        }
    }

    // After the last piece, call after call until it is over: the next block of the bits that are left, if there is one. Where there is none in more bits than a
    // block has, all of them are skipped.
    pub fn end_step(self) -> BitEnd
        requires { BitsReady self }
        ensures { (EndsBits self result) × (BitsReady result.source) × (BitEndCounts self result) }
    {
        let held = self.sync.held;
        let Ok(decided) = self.sync.finish() else {
            unreachable!()
        };
        let found = bits_found(self.used, decided);
        let event = last_event(found, held);
        match event {
            Event::Waits => BitEnd {
                source: self,
                event,
                over: Some(held),
            },
            Event::Block(_) => {
                let more = used_by(decided);
                BitEnd {
                    source: BitSource {
                        sync: decided.sync,
                        used: self.used + more,
                        came: self.came,
                    },
                    event,
                    over: None,
                }
            }
            Event::Lost => {
                let fresh = BlockSync::new();
                BitEnd {
                    source: BitSource {
                        sync: fresh,
                        used: self.used + held as u64,
                        came: self.came,
                    },
                    event,
                    over: None,
                }
            }
        }
    }
}
