// The state of a lock as bytes: where each field begins behind those of the receiver and of the acquisition, the reading and writing of all of them, and whether
// they are in range. specs/State.antt has the layout as a table, and docs/STATES.md lists it with the range of each field.
// Inner: its functions may require what the crates above have tested. docs/ARCHITECTURE.md names the public surface.
#![tactic(auto)]

ghost use Rattle.std.specs.Prelude.{◌≡◌, ◌++◌, ◌*◌, ◌≤◌, length, take};
ghost use Rattle.common.specs.Lists.{padded};
ghost use Rattle.losses.specs.Watch.{waiting_of};
ghost use Rattle.reception_counts.specs.Bytes.{to_bytes};
ghost use Rattle.acquisition_state.specs.State.{Writable};
ghost use Rattle.lock_state.specs.State.{certainty_of, code_of, packets_clear, in_range, cleared, state_bytes, Sized, BlocksSized, NextSized};
ghost use Rattle.receiver_state.specs.State.{state_bytes as block_bytes};
ghost use Rattle.lock_state.specs.Reading.{state_of};

use acquisition_state::{flags_byte, high_of, low_of, plain_of};
use common::{array_at, joined, largest_of, put};
use lock_receiver::LockReceiver;
use lock_stream::LockStream;
use lock_stream::progress::LockProgress;
use lock_stream::source::LockSource;
use losses::Certainty;
use receiver::Receiver;
use reception_counts::count_bytes;

// The first byte of each field behind those of the acquisition, and the length of all of them.
const SKIPPED: usize = 13788;

const END: usize = 13796;

const CERTAIN: usize = 13804;

const PACKETS: usize = 13805;

pub const STATE_LENGTH: usize = 15121;

// What is known of the places, by a number: 8 where it is sure, else how many packets wait. Greater ones are not in range.
fn certainty_of(code: u8) -> Certainty
    ensures { result ≡ certainty_of code }
{
    if code == 8 {
        return Certainty::Sure;
    }
    Certainty::Unsure(code)
}

fn code_of(certainty: Certainty) -> u8
    ensures { result ≡ code_of certainty }
{
    match certainty {
        Certainty::Sure => 8,
        Certainty::Unsure(n) => n,
    }
}

// The lock that bytes stand for, in range or not.
pub fn read_state(bytes: &[u8]) -> LockStream
    requires { length bytes.now ≡ 15121 }
    ensures { (result ≡ state_of bytes.now) × (Sized result) }
{
    let blocks = receiver_state::read_state(bytes);
    let symbols = acquisition_state::read_state(bytes);
    let skipped = count_bytes::number_at(bytes, SKIPPED);
    let end = count_bytes::number_at(bytes, END);
    let certain = bytes[CERTAIN];
    let packets = array_at::<1316>(bytes, PACKETS);
    let certainty = certainty_of(plain_of(certain));
    let receiver = LockReceiver {
        receiver: blocks,
        certainty,
        packets,
    };
    LockStream {
        source: LockSource {
            bits: false,
            symbols,
        },
        progress: LockProgress {
            found: low_of(certain),
            locked: high_of(certain),
            receiver,
            skipped,
            end,
        },
    }
}

// Whether there are zeros behind the packets that wait, of which there are seven at most.
fn packets_clear(receiver: LockReceiver) -> bool
    requires { (waiting_of receiver.certainty ≤ 7) × (length receiver.packets ≡ 1316) }
    ensures { result ≡ packets_clear receiver }
{
    let certainty = receiver.certainty;
    let packets = receiver.packets;
    let end = 188 * losses::waiting(certainty) as usize;
    largest_of(&packets[end..]) == 0
}

// Whether a lock is in range, and cells and bits that hold nothing are 0.
pub fn is_in_range(stream: LockStream) -> bool
    requires { Sized stream }
    ensures { result ≡ in_range stream }
{
    let source = stream.source;
    let bits = source.bits;
    let symbols = source.symbols;
    let progress = stream.progress;
    let receiver = progress.receiver;
    if bits {
        return false;
    }
    if !acquisition_state::is_in_range(symbols) {
        return false;
    }
    if !receiver.in_range() {
        return false;
    }
    packets_clear(receiver)
}

// The packets that wait, with 0 behind them.
fn cleared_packets(receiver: LockReceiver) -> [u8; 1316]
    requires { waiting_of receiver.certainty ≤ 7 }
    ensures { (result ≡ padded 1316 (take (188 * waiting_of receiver.certainty) receiver.packets)) × (length receiver.packets ≡ 1316) }
{
    let end = 188 * losses::waiting(receiver.certainty) as usize;
    joined::<1316>(&receiver.packets[..end], &[])
}

// Writes the fields to their places.
fn put_fields(
    blocks: &[u8],
    symbols: &[u8],
    skipped: u64,
    end: u64,
    certain: &[u8],
    packets: &[u8],
    bytes: &mut [u8],
)
    requires { (length blocks.now ≡ 2322) × (length symbols.now ≡ 11466) × (length certain.now ≡ 1) × (length packets.now ≡ 1316) × (length bytes.old ≡ 15121) }
    ensures { bytes.new ≡ blocks.now ++ symbols.now ++ to_bytes 8 skipped ++ to_bytes 8 end ++ certain.now ++ packets.now }
{
    put(blocks, 0, bytes);
    put(symbols, receiver_state::STATE_LENGTH, bytes);
    count_bytes::put_number(skipped, SKIPPED, bytes);
    count_bytes::put_number(end, END, bytes);
    put(certain, CERTAIN, bytes);
    put(packets, PACKETS, bytes);
}

// The bytes of the receiver of blocks.
fn write_blocks(receiver: Receiver, bytes: &mut [u8])
    requires { length bytes.old ≡ 2322 }
    ensures { (bytes.new ≡ block_bytes receiver) × (BlocksSized receiver) }
{
    receiver_state::write_state(receiver, bytes);
}

// The bytes that stand for a lock, with 0 where it holds nothing.
pub fn write_state(stream: LockStream, bytes: &mut [u8])
    requires { (Writable stream.source.symbols) × (waiting_of stream.progress.receiver.certainty ≤ 7) × (length bytes.old ≡ 15121) }
    ensures { (bytes.new ≡ state_bytes (cleared stream)) × (NextSized stream) }
{
    let source = stream.source;
    let symbols = source.symbols;
    let progress = stream.progress;
    let lock = progress.receiver;
    let receiver = lock.receiver;
    let certainty = lock.certainty;
    let mut blocks = [0u8; 2322];
    write_blocks(receiver, &mut blocks);
    let mut acquired = [0u8; 11466];
    acquisition_state::write_state(symbols, &mut acquired);
    let packets = cleared_packets(lock);
    let certain = [flags_byte(code_of(certainty), progress.found, progress.locked)];
    put_fields(
        &blocks,
        &acquired,
        progress.skipped,
        progress.end,
        &certain,
        &packets,
        bytes,
    );
}
