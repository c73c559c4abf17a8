// Constant tables of the puncturing: LONGEST_PATTERN entries for each mode, one for each place of its pattern and zeros behind them.
use code_tables::{LONGEST_PATTERN, MODES};

// What a bit of a pattern completes.
#[derive(Clone, Copy)]
pub enum Completion {
    // No symbol.
    Nothing,
    // (X,Y) of the bit.
    XY,
    // The held I with X.
    HeldX,
    // The held I with Y.
    HeldY,
    // (Y,X) of the bit.
    YX,
}

use Completion::{HeldX, HeldY, Nothing, XY, YX};

pub const COMPLETED: [Completion; LONGEST_PATTERN * MODES] = [
    XY, Nothing, Nothing, Nothing, Nothing, Nothing, Nothing, XY, Nothing, HeldX, HeldY, Nothing,
    Nothing, Nothing, XY, Nothing, HeldX, Nothing, Nothing, Nothing, Nothing, XY, Nothing, HeldX,
    Nothing, HeldX, Nothing, Nothing, XY, Nothing, HeldY, Nothing, HeldX, Nothing, HeldX, YX,
    Nothing, Nothing, Nothing, Nothing, Nothing, Nothing,
];

// 1 where an I is held before the bit.
pub const HELD: [u8; LONGEST_PATTERN * MODES] = [
    0, 0, 0, 0, 0, 0, 0, 0, 0, 1, 1, 0, 0, 0, 0, 0, 1, 0, 0, 0, 0, 0, 0, 1, 0, 1, 0, 0, 0, 0, 1, 0,
    1, 0, 1, 0, 0, 0, 0, 0, 0, 0,
];

// How many symbols a block gives that begins at a place of the pattern.
pub const COUNTS: [u16; LONGEST_PATTERN * MODES] = [
    1632, 0, 0, 0, 0, 0, 0, 1224, 1224, 1224, 1224, 0, 0, 0, 1088, 1088, 1088, 0, 0, 0, 0, 979,
    979, 979, 979, 980, 0, 0, 933, 932, 933, 932, 933, 932, 933, 544, 0, 0, 0, 0, 0, 0,
];
