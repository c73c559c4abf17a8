// The state of a receiver of pieces as bytes: where each field begins, and the reading and writing of all of them.
// specs/State.antt has the layout as a table, and docs/STATES.md lists it with the range of each field.
ghost use Rattle.std.specs.Prelude.{◌≡◌, false, ◌++◌, ◌<◌, eqb, ltb, length, drop};
ghost use Rattle.common.specs.Choice.{pick};
ghost use Rattle.common.specs.Lists.{largest};
ghost use Rattle.dvbs_receiver.specs.State.{is_clear, state_bytes};
ghost use Rattle.dvbs_receiver.specs.Reading.{state_of};

use common::{array_at, largest_of};
use receiver_stream::ReceiverStream;

// The first byte of each field behind those of the receiver of blocks, and the length of all of them.
const PENDING: usize = 2322;

const DOUBTFUL: usize = 2526;

const HELD: usize = 2730;

pub const STATE_LENGTH: usize = 2731;

// The receiver that bytes stand for. Whether its numbers are in range is asked by the receiver.
pub fn read_state(bytes: &[u8]) -> ReceiverStream
    requires { length bytes.now ≡ 2731 }
    ensures { result ≡ state_of bytes.now }
{
    let receiver = receiver_state::read_state(bytes);
    let pending = array_at(bytes, PENDING);
    let marks = array_at(bytes, DOUBTFUL);
    let held = bytes[HELD] as usize;
    ReceiverStream {
        receiver,
        pending,
        marks,
        held,
    }
}

// Whether the cells of a block behind those that are held are 0.
fn is_vacant(cells: &[u8], held: usize) -> bool
    requires { (held < 204) × (length cells.now ≡ 204) }
    ensures { result ≡ eqb (largest (drop held cells.now)) 0 }
{
    largest_of(&cells[held..]) == 0
}

// Whether cells that hold nothing are 0, and marks are 0 or 1. False where more is held than there are cells.
pub fn is_clear(stream: ReceiverStream) -> bool
    ensures { result ≡ pick (ltb stream.held 204) (is_clear stream) false }
{
    stream.held < 204
        && is_vacant(&stream.pending, stream.held)
        && is_vacant(&stream.marks, stream.held)
        && largest_of(&stream.marks) < 2
}

// Writes the fields to their places.
fn put_fields(receiver: &[u8], pending: &[u8], marks: &[u8], held: &[u8], bytes: &mut [u8])
    requires { (length receiver.now ≡ 2322) × (length pending.now ≡ 204) × (length marks.now ≡ 204) × (length held.now ≡ 1) × (length bytes.old ≡ 2731) }
    ensures { bytes.new ≡ receiver.now ++ pending.now ++ marks.now ++ held.now }
{
    common::put(receiver, 0, bytes);
    common::put(pending, PENDING, bytes);
    common::put(marks, DOUBTFUL, bytes);
    common::put(held, HELD, bytes);
}

// The bytes that stand for a receiver, of which fewer bytes than 256 are held.
pub fn write_state(stream: ReceiverStream, bytes: &mut [u8])
    requires { (stream.held < 256) × (length bytes.old ≡ 2731) }
    ensures { bytes.new ≡ state_bytes stream }
{
    let receiver = stream.receiver;
    let pending = stream.pending;
    let marks = stream.marks;
    let held = [stream.held as u8];
    let mut blocks = [0u8; 2322];
    receiver_state::write_state(receiver, &mut blocks);
    put_fields(&blocks, &pending, &marks, &held, bytes);
}
