// The state of a sender as bytes: where each field begins, and the reading and writing of all of them.
// specs/State.antt has the layout as a table, and docs/STATES.md lists it with the range of each field.
ghost use Rattle.std.specs.Prelude.{◌≡◌, ◌++◌, length};
ghost use Rattle.dvbs_sender.specs.State.{state_bytes};
ghost use Rattle.dvbs_sender.specs.Reading.{state_of};

use inner_code::InnerCoder;
use interleaver::Interleaver;
use interleaver::branches::Branches;
use sender::Sender;

// The first byte of each field, and the length of all of them.
const CELLS: usize = 0;

const POSITIONS: usize = 1122;

const PLACE: usize = 1134;

const MODE: usize = 1135;

const MEMORY: usize = 1136;

const PATTERN: usize = 1137;

const HELD: usize = 1138;

pub const STATE_LENGTH: usize = 1139;

// The sender that bytes stand for. Whether its numbers are in range is asked by the sender.
pub fn read_state(bytes: &[u8]) -> Sender
    requires { length bytes.now ≡ 1139 }
    ensures { result ≡ state_of bytes.now }
{
    let cells = common::array_at(bytes, CELLS);
    let positions = common::array_at(bytes, POSITIONS);
    Sender {
        place: bytes[PLACE],
        interleaver: Interleaver {
            branches: Branches { cells, positions },
        },
        coder: InnerCoder {
            rate: bytes[MODE],
            memory: bytes[MEMORY],
            place: bytes[PATTERN],
            held: bytes[HELD],
        },
    }
}

// Writes the fields to their places. The five numbers are side by side.
fn put_fields(cells: &[u8], positions: &[u8], numbers: &[u8], bytes: &mut [u8])
    requires { (length cells.now ≡ 1122) × (length positions.now ≡ 12) × (length numbers.now ≡ 5) × (length bytes.old ≡ 1139) }
    ensures { bytes.new ≡ cells.now ++ positions.now ++ numbers.now }
{
    common::put(cells, CELLS, bytes);
    common::put(positions, POSITIONS, bytes);
    common::put(numbers, PLACE, bytes);
}

// The bytes that stand for a sender.
pub fn write_state(sender: Sender, bytes: &mut [u8])
    requires { length bytes.old ≡ 1139 }
    ensures { bytes.new ≡ state_bytes sender }
{
    let branches = sender.interleaver.branches;
    let coder = sender.coder;
    let numbers = [
        sender.place,
        coder.rate,
        coder.memory,
        coder.place,
        coder.held,
    ];
    put_fields(&branches.cells, &branches.positions, &numbers, bytes);
}
