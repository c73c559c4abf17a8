// What is given and told of locks, event after event: a fresh receiver for each lock, its packets, and its lines. docs/ACQUISITION.md has the lines.
ghost use Rattle.std.specs.Prelude.{◌≡◌, true, false, List, ℕ, ◌+◌, ◌-◌, ◌≤◌, ◌<◌, length};
ghost use Rattle.receiver_stream.specs.Reporting.{report_of};
ghost use Rattle.reception_counts.specs.Counts.{counts_in_range};
ghost use Rattle.report.specs.Text.{report_text};
ghost use Rattle.report_lines.specs.Line.{Appended};
ghost use Rattle.lock_receiver.specs.Take.{lock_in_range};
ghost use Rattle.lock_stream.specs.Progress.{fresh_progress, found_line, waiting_text, lost_lines, ending_text, closing_text, begun_anew, TakesText, TellsEvent};
ghost use Rattle.acquisition.specs.declared.Event.TheVariants.{Block, Lost};

use acquisition::FoundBlock;
use answer_lines::put_list;
use common::put;
use lock_lines::{put_end, put_lock, put_lost};
use lock_receiver::LockReceiver;
use reception_counts::Counts;

// Whether there was a lock, and whether one lasts; the receiver of the last one; how many symbols or bits were skipped before it, and how many came before the
// bit behind its last block.
#[derive(Clone, Copy)]
pub struct LockProgress {
    pub found: bool,
    pub locked: bool,
    pub receiver: LockReceiver,
    pub skipped: u64,
    pub end: u64,
}

// The progress after an event, and how many bytes of packets and of text were written.
#[derive(Clone, Copy)]
pub struct Told {
    pub progress: LockProgress,
    pub packets: usize,
    pub text: usize,
}

// The receiver after a block, how many bytes of packets were written, and where the text ends.
#[derive(Clone, Copy)]
struct BlockTaken {
    receiver: LockReceiver,
    packets: usize,
    text: usize,
}

// Writes the pass report of form 2 on these counts, with so many bytes behind the last block.
fn put_report(counts: Counts, rest: u64, at: usize, text: &mut [u8]) -> usize
    requires { (counts_in_range counts ≡ true) × (rest < 204) × (at + 320 ≤ length text.old) }
    ensures { Appended (report_text (report_of counts rest)) text.old text.new at result (at + 320) }
{
    let mut own = [0u8; 320];
    let report = receiver_stream::report_of(counts, rest);
    let n = report::write_report(report, &mut own).unwrap_or(0);
    put(&own[..n], at, text);
    at + n
}

// Writes the lines of the packets that wait: the lock ends, and they are in doubt.
fn put_waiting(receiver: LockReceiver, at: usize, text: &mut [u8]) -> usize
    requires { (lock_in_range receiver ≡ true) × (at + 512 ≤ length text.old) }
    ensures { Appended (waiting_text receiver) text.old text.new at result (at + 512) }
{
    let mut lines = [0u64; 8];
    // There is room for a line for each packet that waits.
    let count = receiver.end(&mut lines).unwrap_or(0);
    put_list(&lines, count, at, text)
}

// Writes where a lock ended, and its report.
fn put_lost_lock(bits: bool, progress: LockProgress, rest: u64, at: usize, text: &mut [u8]) -> usize
    requires { (lock_in_range progress.receiver ≡ true) × (rest < 204) × (at + 384 ≤ length text.old) }
    ensures { Appended (lost_lines bits progress rest) text.old text.new at result (at + 384) }
{
    let lock = progress.receiver;
    let receiver = lock.receiver;
    let counts = receiver.counts;
    let middle = put_lost(bits, progress.end, progress.skipped, at, text);
    put_report(counts, rest, middle, text)
}

// Writes what is told where a lock ends before the end of the input.
fn put_ending(bits: bool, progress: LockProgress, text: &mut [u8]) -> usize
    requires { (lock_in_range progress.receiver ≡ true) × (896 ≤ length text.old) }
    ensures { Appended (ending_text bits progress) text.old text.new 0 result 896 }
{
    let receiver = progress.receiver;
    let locked = progress.locked;
    if !locked {
        return 0;
    }
    let middle = put_waiting(receiver, 0, text);
    put_lost_lock(bits, progress, 0, middle, text)
}

// Writes what is told where the input ends: so many symbols or bits came in all, so many bits are behind the last block, and so many bytes of a point that is
// not whole.
pub fn put_closing(
    bits: bool,
    progress: LockProgress,
    came: u64,
    left: usize,
    bytes: u64,
    text: &mut [u8],
) -> usize
    requires { (lock_in_range progress.receiver ≡ true) × (left < 1632) × (1024 ≤ length text.old) }
    ensures { Appended (closing_text bits progress came left bytes) text.old text.new 0 result 1024 }
{
    let receiver = progress.receiver;
    let locked = progress.locked;
    let found = progress.found;
    let skipped = between(progress.end, came);
    if !locked {
        return put_end(bits, found, came, skipped, bytes, 0, text);
    }
    let middle = put_waiting(receiver, 0, text);
    let last = put_end(bits, found, came, skipped, bytes, middle, text);
    put_lost_lock(bits, progress, (left / 8) as u64, last, text)
}

// How many symbols or bits are between two places.
fn between(end: u64, start: u64) -> u64
    ensures { result ≡ start - end }
{
    if start < end { 0 } else { start - end }
}

// Takes a block: writes the packets that are sure then, and the lines.
fn take_block(
    receiver: LockReceiver,
    block: [u8; 204],
    packets: &mut [u8],
    at: usize,
    text: &mut [u8],
) -> BlockTaken
    requires { (lock_in_range receiver ≡ true) × (receiver.receiver.counts.taken < 4294967295) × (1504 ≤ length packets.old) × (at + 512 ≤ length text.old) }
    ensures { TakesText receiver block at text.old result packets.new text.new }
{
    let mut lines = [0u64; 8];
    // No test refuses a block of a lock.
    let Ok(step) = receiver.take(&block, packets, &mut lines) else {
        return BlockTaken {
            receiver,
            packets: 0,
            text: at,
        };
    };
    let end = put_list(&lines, step.told, at, text);
    BlockTaken {
        receiver: step.lock,
        packets: 188 * step.given,
        text: end,
    }
}

// Writes the line of a lock that is found with a block.
fn put_found_lock(bits: bool, block: FoundBlock, at: usize, text: &mut [u8]) -> usize
    requires { (block.rate < 5) × (at + 113 ≤ length text.old) }
    ensures { Appended (found_line bits block) text.old text.new at result (at + 113) }
{
    let rate = block.rate;
    let start = block.start;
    let pattern = reader::symbol_count(rate) as u64;
    put_lock(bits, rate, block.turn, start % pattern, start, at, text)
}

// Whether a block begins a lock: it does not follow the block before it, or the counts of that one's receiver are full.
fn begun_anew(progress: LockProgress, begins: bool) -> bool
    ensures { result ≡ begun_anew progress begins }
{
    let lock = progress.receiver;
    let receiver = lock.receiver;
    let counts = receiver.counts;
    let taken = counts.taken;
    let locked = progress.locked;
    let anew = begins;
    if anew {
        return true;
    }
    if !locked {
        return true;
    }
    Counts::MOST <= taken
}

// A block that begins a lock: the lock before it ends, and a fresh receiver takes the block.
fn begin_lock(
    bits: bool,
    progress: LockProgress,
    block: FoundBlock,
    packets: &mut [u8],
    text: &mut [u8],
) -> Told
    requires { (lock_in_range progress.receiver ≡ true) × (begun_anew progress block.begins ≡ true) × (block.rate < 5) × (1504 ≤ length packets.old) × (2048 ≤ length text.old) }
    ensures { TellsEvent bits progress (Block block) result packets.new text.new }
{
    let start = block.start;
    let end = block.end;
    let bytes = block.bytes;
    let fresh = LockReceiver::new();
    let ended = put_ending(bits, progress, text);
    let told = put_found_lock(bits, block, ended, text);
    let taken = take_block(fresh, bytes, packets, told, text);
    let receiver = taken.receiver;
    Told {
        progress: LockProgress {
            found: true,
            locked: true,
            receiver,
            skipped: between(progress.end, start),
            end,
        },
        packets: taken.packets,
        text: taken.text,
    }
}

// A block that follows the one before it: the receiver of the lock takes it.
fn follow_lock(
    bits: bool,
    progress: LockProgress,
    block: FoundBlock,
    packets: &mut [u8],
    text: &mut [u8],
) -> Told
    requires { (lock_in_range progress.receiver ≡ true) × (begun_anew progress block.begins ≡ false) × (1504 ≤ length packets.old) × (2048 ≤ length text.old) }
    ensures { TellsEvent bits progress (Block block) result packets.new text.new }
{
    let lock = progress.receiver;
    let end = block.end;
    let bytes = block.bytes;
    let taken = take_block(lock, bytes, packets, 0, text);
    let receiver = taken.receiver;
    Told {
        progress: LockProgress {
            found: progress.found,
            locked: true,
            receiver,
            skipped: progress.skipped,
            end,
        },
        packets: taken.packets,
        text: taken.text,
    }
}

// Writes the packets that a block gives, and the lines that it tells.
pub fn tell_block(
    bits: bool,
    progress: LockProgress,
    block: FoundBlock,
    packets: &mut [u8],
    text: &mut [u8],
) -> Told
    requires { (lock_in_range progress.receiver ≡ true) × (block.rate < 5) × (1504 ≤ length packets.old) × (2048 ≤ length text.old) }
    ensures { TellsEvent bits progress (Block block) result packets.new text.new }
{
    if begun_anew(progress, block.begins) {
        return begin_lock(bits, progress, block, packets, text);
    }
    follow_lock(bits, progress, block, packets, text)
}

// Writes the lines where no block follows: a lock that lasts ends.
pub fn tell_lost(bits: bool, progress: LockProgress, text: &mut [u8]) -> Told
    requires { (lock_in_range progress.receiver ≡ true) × (2048 ≤ length text.old) }
    ensures { (packets : List ℕ) → TellsEvent bits progress Lost result packets text.new }
{
    let receiver = progress.receiver;
    let size = put_ending(bits, progress, text);
    Told {
        progress: LockProgress {
            found: progress.found,
            locked: false,
            receiver,
            skipped: progress.skipped,
            end: progress.end,
        },
        packets: 0,
        text: size,
    }
}

impl LockProgress {
    // No lock yet.
    pub fn new() -> LockProgress
        ensures { (result ≡ fresh_progress) × (lock_in_range result.receiver ≡ true) }
    {
        let receiver = LockReceiver::new();
        LockProgress {
            found: false,
            locked: false,
            receiver,
            skipped: 0,
            end: 0,
        }
    }
}
