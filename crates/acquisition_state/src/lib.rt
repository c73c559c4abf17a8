// An acquisition as bytes, those of a lock's state behind the receiver: where each field begins, the reading and writing of all of them, and whether they are
// in range. specs/State.antt has the layout as a table, and docs/STATES.md lists it with the range of each field.
// Inner: its functions may require what the crates above have tested. docs/ARCHITECTURE.md names the public surface.
#![tactic(auto)]

ghost use Rattle.std.specs.Prelude.{◌≡◌, ◌++◌, ◌≤◌, ◌<◌, length};
ghost use Rattle.reception_counts.specs.Bytes.{to_bytes};
ghost use Rattle.acquisition_state.specs.State.{phase_of, is_reading, flags_byte, plain_of, low_of, high_of, runs_idle, sync_idle, bits_in_range, pending_in_range, counts_in_range, reading_in_range, phase_in_range, in_range, cleared, field_bytes, Writable};
ghost use Rattle.acquisition_state.specs.Reading.{state_of};

use acquisition::{Acquisition, Phase, Reading};
use block_sync::{BlockSync, Lock};
use common::{array_at, largest_of, put};
use reader_state::{are_in_range, cleared_pairs, number_at, pairs_at};
use reader_stream::symbol_runs::SymbolRuns;
use reception_counts::count_bytes;

// The first byte of each field, and the end of the last.
const PENDING: usize = 2322;

const PAIRS: usize = 3954;

const BITS: usize = 5586;

const HELD: usize = 13754;

const COUNT: usize = 13756;

const GATHERED: usize = 13758;

const CAME: usize = 13760;

const FIRST: usize = 13768;

const USED: usize = 13776;

const SEARCHED: usize = 13784;

const TURNED: usize = 13785;

const RATE: usize = 13786;

const MEMORY: usize = 13787;

pub const END: usize = 13788;

// A number and two flags in a byte.
pub fn flags_byte(number: u8, low: bool, high: bool) -> u8
    requires { number < 64 }
    ensures { result ≡ flags_byte number low high }
{
    number % 8 + 8 * low as u8 + 16 * high as u8 + 32 * (number / 8)
}

pub fn plain_of(byte: u8) -> u8
    ensures { result ≡ plain_of byte }
{
    byte % 8 + 8 * (byte / 32)
}

pub fn low_of(byte: u8) -> bool
    ensures { result ≡ low_of byte }
{
    byte / 8 % 2 == 1
}

pub fn high_of(byte: u8) -> bool
    ensures { result ≡ high_of byte }
{
    byte / 16 % 2 == 1
}

fn phase_of(reads: bool) -> Phase
    ensures { result ≡ phase_of reads }
{
    if reads { Phase::Reads } else { Phase::Searches }
}

fn is_reading(phase: Phase) -> bool
    ensures { result ≡ is_reading phase }
{
    matches!(phase, Phase::Reads)
}

// The reading that bytes stand for.
fn read_reading(bytes: &[u8]) -> Reading
    requires { 13788 ≤ length bytes.now }
    ensures { result ≡ (state_of bytes.now).reading }
{
    let held = pairs_at(bytes, PAIRS);
    let bits = array_at::<8168>(bytes, BITS);
    let count = number_at(bytes, COUNT);
    let gathered = number_at(bytes, GATHERED);
    let first = count_bytes::number_at(bytes, FIRST);
    let used = count_bytes::number_at(bytes, USED);
    let turned = bytes[TURNED];
    let rate = bytes[RATE];
    let memory = bytes[MEMORY];
    let runs = SymbolRuns {
        rate,
        memory,
        held,
        count,
    };
    let lock = Lock {
        locked: low_of(turned),
        inverted: high_of(turned),
    };
    let sync = BlockSync {
        lock,
        bits,
        held: gathered,
    };
    Reading {
        turn: plain_of(turned),
        runs,
        sync,
        first,
        used,
    }
}

// The acquisition that bytes stand for, in range or not.
pub fn read_state(bytes: &[u8]) -> Acquisition
    requires { 13788 ≤ length bytes.now }
    ensures { result ≡ state_of bytes.now }
{
    let reading = read_reading(bytes);
    let pending = pairs_at(bytes, PENDING);
    let held = number_at(bytes, HELD);
    let came = count_bytes::number_at(bytes, CAME);
    let searched = bytes[SEARCHED];
    let phase = phase_of(high_of(searched));
    Acquisition {
        rate: plain_of(searched),
        mirrored: low_of(searched),
        phase,
        reading,
        pending,
        held,
        came,
    }
}

// Whether the symbols that are not read yet are in range, with 0 behind them.
fn pending_in_range(pending: &[u8], held: usize, came: u64) -> bool
    requires { length pending.now ≡ 1632 }
    ensures { result ≡ pending_in_range pending.now held came }
{
    if held >= 1633 {
        return false;
    }
    if came < held as u64 {
        return false;
    }
    if largest_of(&pending[held..]) != 0 {
        return false;
    }
    largest_of(pending) < 81
}

// Whether the bits in which blocks are looked for are, with 0 behind them.
fn bits_in_range(sync: BlockSync) -> bool
    requires { length sync.bits ≡ 8168 }
    ensures { result ≡ bits_in_range sync }
{
    let bits = sync.bits;
    let held = sync.held;
    if held >= 8168 {
        return false;
    }
    if largest_of(&bits[held..]) != 0 {
        return false;
    }
    largest_of(&bits) < 2
}

// Whether the counts of a reading are those of the symbols that came. Fewer than 65,536 symbols are pending, and so many the runs hold, and bits.
fn counts_in_range(state: Acquisition) -> bool
    requires { (state.came < 1152921504606846976) × (state.held < 65536) × (state.reading.runs.count < 65536) × (state.reading.sync.held < 65536) }
    ensures { result ≡ counts_in_range state }
{
    let reading = state.reading;
    let runs = reading.runs;
    let sync = reading.sync;
    let came = state.came;
    let first = reading.first;
    let used = reading.used;
    let held = state.held as u64 + runs.count as u64;
    let gathered = sync.held as u64;
    if came < first {
        return false;
    }
    if used >= 4611686018427387904 {
        return false;
    }
    !(2 * (came - first) + 16 < used + gathered + 2 * held)
}

// Whether a reading is in range. What was tested of the state before stays a fact: a state is read from any bytes, and its numbers are public.
fn reading_in_range(state: Acquisition) -> bool
    requires { (state.came < 1152921504606846976) × (state.held < 65536) × (length state.reading.runs.held ≡ 1632) × (length state.reading.sync.bits ≡ 8168) }
    ensures { result ≡ reading_in_range state }
{
    let reading = state.reading;
    let runs = reading.runs;
    let sync = reading.sync;
    let turn = reading.turn;
    if !are_in_range(runs) {
        return false;
    }
    if turn >= 8 {
        return false;
    }
    if !bits_in_range(sync) {
        return false;
    }
    counts_in_range(state)
}

// Whether there is no reading: its turn and its runs are 0.
fn runs_idle(reading: Reading) -> bool
    requires { length reading.runs.held ≡ 1632 }
    ensures { result ≡ runs_idle reading }
{
    let runs = reading.runs;
    let turn = reading.turn;
    let rate = runs.rate;
    let memory = runs.memory;
    let count = runs.count;
    let held = runs.held;
    if turn != 0 {
        return false;
    }
    if rate != 0 {
        return false;
    }
    if memory != 0 {
        return false;
    }
    if count != 0 {
        return false;
    }
    largest_of(&held) == 0
}

// And its blocks and its counts are.
fn sync_idle(reading: Reading) -> bool
    requires { length reading.sync.bits ≡ 8168 }
    ensures { result ≡ sync_idle reading }
{
    let sync = reading.sync;
    let lock = sync.lock;
    let locked = lock.locked;
    let inverted = lock.inverted;
    let held = sync.held;
    let bits = sync.bits;
    let first = reading.first;
    let used = reading.used;
    if locked {
        return false;
    }
    if inverted {
        return false;
    }
    if held != 0 {
        return false;
    }
    if first != 0 {
        return false;
    }
    if used != 0 {
        return false;
    }
    largest_of(&bits) == 0
}

// Whether what belongs to the phase is in range.
fn phase_in_range(state: Acquisition) -> bool
    requires { (state.came < 1152921504606846976) × (state.held < 65536) × (length state.reading.runs.held ≡ 1632) × (length state.reading.sync.bits ≡ 8168) }
    ensures { result ≡ phase_in_range state state.phase }
{
    let phase = state.phase;
    let reading = state.reading;
    let held = state.held;
    match phase {
        Phase::Searches => {
            if held >= 1632 {
                return false;
            }
            if !runs_idle(reading) {
                return false;
            }
            sync_idle(reading)
        }
        Phase::Reads => reading_in_range(state),
    }
}

// Whether an acquisition is in range, and cells and bits that hold nothing are 0.
pub fn is_in_range(state: Acquisition) -> bool
    requires { (length state.pending ≡ 1632) × (length state.reading.runs.held ≡ 1632) × (length state.reading.sync.bits ≡ 8168) }
    ensures { result ≡ in_range state }
{
    let rate = state.rate;
    let came = state.came;
    let held = state.held;
    let pending = state.pending;
    if rate >= 6 {
        return false;
    }
    if came >= 1152921504606846976 {
        return false;
    }
    if !pending_in_range(&pending, held, came) {
        return false;
    }
    phase_in_range(state)
}

// Writes the fields to their places. Numbers of two bytes are side by side, and so are the last four.
fn put_fields(
    pending: &[u8],
    pairs: &[u8],
    bits: &[u8],
    small: &[u8],
    came: u64,
    first: u64,
    used: u64,
    flags: &[u8],
    bytes: &mut [u8],
)
    requires { (length pending.now ≡ 1632) × (length pairs.now ≡ 1632) × (length bits.now ≡ 8168) × (length small.now ≡ 6) × (length flags.now ≡ 4)
        × (length bytes.old ≡ 11466) }
    ensures { bytes.new ≡ pending.now ++ pairs.now ++ bits.now ++ small.now ++ to_bytes 8 came ++ to_bytes 8 first ++ to_bytes 8 used ++ flags.now }
{
    put(pending, 0, bytes);
    put(pairs, PAIRS - PENDING, bytes);
    put(bits, BITS - PENDING, bytes);
    put(small, HELD - PENDING, bytes);
    count_bytes::put_number(came, CAME - PENDING, bytes);
    count_bytes::put_number(first, FIRST - PENDING, bytes);
    count_bytes::put_number(used, USED - PENDING, bytes);
    put(flags, SEARCHED - PENDING, bytes);
}

// The bytes that stand for an acquisition, with 0 where its runs hold nothing.
pub fn write_state(state: Acquisition, bytes: &mut [u8])
    requires { (Writable state) × (length bytes.old ≡ 11466) }
    ensures { bytes.new ≡ field_bytes (cleared state) }
{
    let reading = state.reading;
    let runs = reading.runs;
    let sync = reading.sync;
    let lock = sync.lock;
    let phase = state.phase;
    let pending = state.pending;
    let bits = sync.bits;
    let held = state.held;
    let count = runs.count;
    let gathered = sync.held;
    let pairs = cleared_pairs(runs);
    let small = [
        (held % 256) as u8,
        (held / 256) as u8,
        (count % 256) as u8,
        (count / 256) as u8,
        (gathered % 256) as u8,
        (gathered / 256) as u8,
    ];
    let flags = [
        flags_byte(state.rate, state.mirrored, is_reading(phase)),
        flags_byte(reading.turn, lock.locked, lock.inverted),
        runs.rate,
        runs.memory,
    ];
    put_fields(
        &pending,
        &pairs,
        &bits,
        &small,
        state.came,
        reading.first,
        reading.used,
        &flags,
        bytes,
    );
}
