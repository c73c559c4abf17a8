// The fixed numbers of both codes, as the standards print them: pattern length and symbols of each mode of the inner code, EN 300 421, table 2, and
// EN 301 210, tables 3 and 4; the generator polynomial of the outer code, EN 300 421, 4.4.2. The coders use them from here, and their proofs compare
// them with the definitions.
// Inner: docs/ARCHITECTURE.md names the public surface.
#![tactic(auto)]

// The modes are QPSK 1/2, 2/3, 3/4, 5/6, 7/8, and 16QAM 3/4. A mode is known by its number, from 0 on.
pub const MODES: usize = 6;

// The first of them are QPSK, and have no uncoded bits.
pub const QPSK_MODES: usize = 5;

// The bits of each mode's pattern.
pub const PATTERN_LENGTHS: [u8; MODES] = [1, 4, 3, 5, 7, 1];

// The bits of the longest pattern: tables of what holds at each place of each pattern have so many entries for each mode.
pub const LONGEST_PATTERN: usize = 7;

// The coded bits of a pattern, by where they stand from its first bit on: the 1,632 X of a block come before the Y.
pub const X1: usize = 0;

pub const X3: usize = 2;

pub const X5: usize = 4;

pub const X7: usize = 6;

pub const Y1: usize = 1632;

pub const Y2: usize = 1633;

pub const Y3: usize = 1634;

pub const Y4: usize = 1635;

pub const Y6: usize = 1637;

// The symbols of each QPSK mode's pattern in the order in which they are sent: the I of each, and the Q of each.
pub const I_1_2: [usize; 1] = [X1];

pub const Q_1_2: [usize; 1] = [Y1];

pub const I_2_3: [usize; 3] = [X1, Y2, Y3];

pub const Q_2_3: [usize; 3] = [Y1, X3, Y4];

pub const I_3_4: [usize; 2] = [X1, Y2];

pub const Q_3_4: [usize; 2] = [Y1, X3];

pub const I_5_6: [usize; 3] = [X1, Y2, Y4];

pub const Q_5_6: [usize; 3] = [Y1, X3, X5];

pub const I_7_8: [usize; 4] = [X1, Y2, Y4, Y6];

pub const Q_7_8: [usize; 4] = [Y1, Y3, X5, X7];

// How a mode with uncoded bits takes a group of bytes: EN 301 210, tables 3 and 4. The first byte is coded, the top bit first. The others, as many as
// others says, are cut into digits of the base, the top bits first, and one digit stands beside each coded bit. Each coded bit gives one symbol: its
// coded bits C2 and C1 are X1 or Y1.
#[derive(Clone, Copy)]
pub struct Grouping {
    pub others: usize,
    pub base: u8,
    pub c2: usize,
    pub c1: usize,
}

pub const GROUPING_16QAM: Grouping = Grouping {
    others: 2,
    base: 4,
    c2: Y1,
    c1: X1,
};

// The sixteen coefficients of the generator polynomial below x^16, from x^15 down.
pub const GENERATOR: [u8; 16] = [
    0x3B, 0x0D, 0x68, 0xBD, 0x44, 0xD1, 0x1E, 0x08, 0xA3, 0x41, 0x29, 0xE5, 0x62, 0x32, 0x24, 0x3B,
];
