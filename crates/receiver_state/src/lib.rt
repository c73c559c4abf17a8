// The state of a receiver as bytes: where each field begins, and the reading and writing of all of them.
// specs/State.antt has the layout as a table, and docs/BRIDGE.md lists it with the range of each field.
// Inner: its functions may require what the crates above have tested. docs/ARCHITECTURE.md names the public surface.
#![tactic(auto)]

ghost use Rattle.std.specs.Prelude.{◌≡◌, ◌++◌, ◌≤◌, length};
ghost use Rattle.receiver_state.specs.State.{place_byte, state_bytes};
ghost use Rattle.receiver_state.specs.Reading.{place_of, state_of};

use group_sync::GroupSync;
use interleaver::Deinterleaver;
use interleaver::branches::Branches;
use receiver::Receiver;
use reception_counts::count_bytes::{counts_at, put_counts};

// The first byte of each field, and the length of all of them. The counts are eight numbers of eight bytes.
const CELLS: usize = 0;

const POSITIONS: usize = 1122;

const PLACE: usize = 1134;

const MISSED: usize = 1135;

pub const COUNTS: usize = 1136;

const MARKS: usize = 1200;

pub const STATE_LENGTH: usize = 2322;

// 0 to 7 for a place that is known, 8 for one that is not. Greater ones are no places, and the receiver refuses them.
fn place_of(byte: u8) -> Option<u8>
    ensures { result ≡ place_of byte }
{
    if byte == 8 { None } else { Some(byte) }
}

fn place_byte(place: Option<u8>) -> u8
    ensures { result ≡ place_byte place }
{
    place.unwrap_or(8)
}

// The receiver that the first bytes stand for. Whether its numbers are in range is asked by the receiver.
pub fn read_state(bytes: &[u8]) -> Receiver
    requires { 2322 ≤ length bytes.now }
    ensures { result ≡ state_of bytes.now }
{
    let branches = Branches {
        cells: common::array_at(bytes, CELLS),
        positions: common::array_at(bytes, POSITIONS),
    };
    let sync = GroupSync {
        place: place_of(bytes[PLACE]),
        missed: bytes[MISSED],
    };
    Receiver {
        deinterleaver: Deinterleaver { branches },
        marks: common::array_at(bytes, MARKS),
        sync,
        counts: counts_at(bytes, COUNTS),
    }
}

// Writes the fields to their places. The place and what is missed are side by side, and so are the counts.
#[inline(always)]
fn put_fields(
    cells: &[u8],
    positions: &[u8],
    sync: &[u8],
    counts: &[u8],
    marks: &[u8],
    bytes: &mut [u8],
)
    requires { (length cells.now ≡ 1122) × (length positions.now ≡ 12) × (length sync.now ≡ 2) × (length counts.now ≡ 64) × (length marks.now ≡ 1122)
        × (length bytes.old ≡ 2322) }
    ensures { bytes.new ≡ cells.now ++ positions.now ++ sync.now ++ counts.now ++ marks.now }
{
    common::put(cells, CELLS, bytes);
    common::put(positions, POSITIONS, bytes);
    common::put(sync, PLACE, bytes);
    common::put(counts, COUNTS, bytes);
    common::put(marks, MARKS, bytes);
}

// The bytes that stand for a receiver. In line, with its fields, so that a receiver that a caller has just made goes straight to its bytes.
#[inline(always)]
pub fn write_state(receiver: Receiver, bytes: &mut [u8])
    requires { length bytes.old ≡ 2322 }
    ensures { bytes.new ≡ state_bytes receiver }
{
    let branches = receiver.deinterleaver.branches;
    let sync = [place_byte(receiver.sync.place), receiver.sync.missed];
    let mut counts = [0u8; 64];
    put_counts(receiver.counts, &mut counts);
    put_fields(
        &branches.cells,
        &branches.positions,
        &sync,
        &counts,
        &receiver.marks,
        bytes,
    );
}
