// Blocks found in decoded bits: bits come in pieces of any length and begin anywhere, blocks of 204 bytes go out. A bit is the lowest of its byte.
// A decision is made only when the buffer of 8,168 bits, five blocks and a sync byte, is full, so that it does not depend on the pieces.
#![tactic(auto)]

ghost use Rattle.std.specs.Prelude.{◌≡◌, ◌<◌, ◌+◌, ◌-◌, ◌≤◌, length};
ghost use Rattle.block_sync.specs.Decision.{is_sync, sync_or_end, in_a_step, three_at, polarity_at, keeps, block_of, Decides, used_bits, block_given};
ghost use Rattle.block_sync.specs.Grid.{turned_byte};
ghost use Rattle.block_sync.specs.Feed.{fresh_block_sync, TurnsBuffer, FeedsSync, FinishesSync};

use answer::Refusal;
use common::{joined, put};

// Whether blocks are being given, and whether their bits come inverted.
#[derive(Clone, Copy)]
pub struct Lock {
    pub locked: bool,
    pub inverted: bool,
}

// The lock, and the bits that are held: how many, and an array that has them at its front.
#[derive(Clone, Copy)]
pub struct BlockSync {
    pub lock: Lock,
    pub bits: [u8; 8168],
    pub held: usize,
}

// What is decided of the bits at the front: how many are skipped; whether a block follows these, and then whether it is one that does not follow the block
// before it; and the lock after it.
#[derive(Clone, Copy)]
pub struct Decision {
    pub skipped: usize,
    pub begins: Option<bool>,
    pub lock: Lock,
}

// A block that is given, and whether it begins anew, so that a fresh receiver must take it.
#[derive(Clone, Copy)]
pub struct GivenBlock {
    pub begins: bool,
    pub bytes: [u8; 204],
}

// How many bits of the piece were taken, how many bits were skipped, the block behind these, where one is given, and the value after it.
#[derive(Clone, Copy)]
pub struct SyncStep {
    pub taken: usize,
    pub skipped: usize,
    pub block: Option<GivenBlock>,
    pub sync: BlockSync,
}

// Whether one of the two sync bytes stands at a place. Inverted, each of them is the other.
fn is_sync(bits: &[u8], at: usize) -> bool
    requires { at + 8 ≤ length bits.now }
    ensures { result ≡ is_sync bits.now at }
{
    let byte = sync_search::byte_at(bits, at);
    byte == 0x47 || byte == 0xB8
}

// The same, and true where the bits end before it.
fn sync_or_end(bits: &[u8], at: usize) -> bool
    requires { at ≤ 8168 }
    ensures { result ≡ sync_or_end bits.now at }
{
    bits.len() < at + 8 || is_sync(bits, at)
}

// Whether one of the next four blocks begins with a sync byte.
fn in_step(bits: &[u8]) -> bool
    ensures { result ≡ in_a_step bits.now }
{
    sync_or_end(bits, 0)
        || sync_or_end(bits, 1632)
        || sync_or_end(bits, 3264)
        || sync_or_end(bits, 4896)
}

// How many of the first bytes of three blocks are a value.
fn three_at(bits: &[u8], value: u8, at: usize) -> usize
    requires { at + 3272 ≤ length bits.now }
    ensures { (result ≡ three_at bits.now value at) × (result ≤ 3) }
{
    sync_search::is_at(bits, value, at)
        + sync_search::is_at(bits, value, at + 1632)
        + sync_search::is_at(bits, value, at + 3264)
}

// Whether the bits from a place on are inverted: by the majority of three sync bytes, and as before where not all three are sync bytes.
fn polarity(bits: &[u8], at: usize, before: bool) -> bool
    requires { at ≤ 8168 }
    ensures { result ≡ polarity_at bits.now at before }
{
    if bits.len() < at + 3272 {
        return before;
    }
    let plain = three_at(bits, 0x47, at);
    let inverted = three_at(bits, 0xB8, at);
    if plain + inverted != 3 {
        return before;
    }
    1 < inverted
}

// Whether the block at the front follows the one before it: blocks were being given, it is whole, and the lock is not lost.
fn keeps_lock(lock: Lock, bits: &[u8]) -> bool
    ensures { result ≡ keeps lock bits.now }
{
    lock.locked && 1632 <= bits.len() && in_step(bits)
}

// How many places of so many bits were searched, where no sync was found: those with five sync bytes within the bits.
fn searched(length: usize) -> usize
    ensures { result ≡ length - 6535 }
{
    length.saturating_sub(6535)
}

// What is decided of the bits at the front.
fn decide(lock: Lock, bits: &[u8]) -> Decision
    requires { length bits.now ≤ 8168 }
    ensures { Decides lock bits.now result }
{
    if keeps_lock(lock, bits) {
        let inverted = polarity(bits, 0, lock.inverted);
        return Decision {
            skipped: 0,
            begins: Some(false),
            lock: Lock {
                locked: true,
                inverted,
            },
        };
    }
    match sync_search::find_sync(bits, 0) {
        Some(at) => {
            let inverted = polarity(bits, at, false);
            Decision {
                skipped: at,
                begins: Some(true),
                lock: Lock {
                    locked: true,
                    inverted,
                },
            }
        }
        None => Decision {
            skipped: searched(bits.len()),
            begins: None,
            lock: Lock {
                locked: false,
                inverted: false,
            },
        },
    }
}

// A byte, inverted or not.
fn turned_byte(inverted: bool, byte: u8) -> u8
    ensures { result ≡ turned_byte inverted byte }
{
    if inverted { 255 - byte } else { byte }
}

// The bytes of a block's bits, inverted or not, into an output of as many.
fn put_block(inverted: bool, bits: &[u8], output: &mut [u8])
    requires { (length bits.now ≡ 1632) × (length output.old ≡ 204) }
    ensures { output.new ≡ block_of inverted bits.now }
{
    for k in 0..204 {
        output[k] = turned_byte(inverted, sync_search::byte_at(bits, 8 * k));
    }
}

// The bytes of a block's bits.
fn block_of(inverted: bool, bits: &[u8]) -> [u8; 204]
    requires { length bits.now ≡ 1632 }
    ensures { result ≡ block_of inverted bits.now }
{
    let mut block = [0u8; 204];
    put_block(inverted, bits, &mut block);
    block
}

// How many bits a decision uses up.
fn used_bits(d: Decision) -> usize
    requires { d.skipped ≤ 8168 }
    ensures { result ≡ used_bits d }
{
    match d.begins {
        Some(_) => d.skipped + 1632,
        None => d.skipped,
    }
}

// The block that is given, if one is.
fn block_given(d: Decision, bits: &[u8]) -> Option<GivenBlock>
    requires { used_bits d ≤ length bits.now }
    ensures { result ≡ block_given d bits.now }
{
    let begins = d.begins?;
    let start = d.skipped;
    let bytes = block_of(d.lock.inverted, &bits[start..start + 1632]);
    Some(GivenBlock { begins, bytes })
}

// Decides, gives the block and drops the bits that are used up.
fn turn(taken: usize, lock: Lock, bits: &[u8]) -> SyncStep
    requires { length bits.now ≤ 8168 }
    ensures { TurnsBuffer taken lock bits.now result }
{
    let d = decide(lock, bits);
    let used = used_bits(d);
    let block = block_given(d, bits);
    let rest = joined::<8168>(&bits[used..], &bits[..0]);
    SyncStep {
        taken,
        skipped: d.skipped,
        block,
        sync: BlockSync {
            lock: d.lock,
            bits: rest,
            held: bits.len() - used,
        },
    }
}

impl BlockSync {
    // No bit, and no lock.
    pub fn new() -> BlockSync
        ensures { result ≡ fresh_block_sync }
    {
        BlockSync {
            lock: Lock {
                locked: false,
                inverted: false,
            },
            bits: [0u8; 8168],
            held: 0,
        }
    }

    // Takes bits of a piece: as many as fill the buffer, or all. Where they fill it, bits are skipped, or a block is given, or both.
    pub fn feed(self, piece: &[u8]) -> Result<SyncStep, Refusal>
        ensures { FeedsSync self piece.now result }
    {
        if 8168 <= self.held {
            return Err(Refusal::StateRange);
        }
        Ok(self.take(piece))
    }

    // The same where there is room for a bit, so that nothing is refused. A caller who knows that has each step once, and not in a Result too: it holds
    // eight thousand bits.
    pub fn take(self, piece: &[u8]) -> SyncStep
        requires { self.held < 8168 }
        ensures { FeedsSync self piece.now (Ok result) }
    {
        let held = self.held;
        let space = 8168 - held;
        if piece.len() < space {
            let bits = joined::<8168>(&self.bits[..held], piece);
            return SyncStep {
                taken: piece.len(),
                skipped: 0,
                block: None,
                sync: BlockSync {
                    lock: self.lock,
                    bits,
                    held: held + piece.len(),
                },
            };
        }
        // A copy, and no array of zeros: all of it is filled.
        let mut buffer = self.bits;
        put(&piece[..space], held, &mut buffer);
        turn(space, self.lock, &buffer)
    }

    // After the last piece: the next block of the bits that are held, if there is one. Called until none is given.
    pub fn finish(self) -> Result<SyncStep, Refusal>
        ensures { FinishesSync self result }
    {
        let held = self.held;
        if 8168 <= held {
            return Err(Refusal::StateRange);
        }
        Ok(turn(0, self.lock, &self.bits[..held]))
    }
}
