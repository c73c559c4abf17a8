// A block in a mode with uncoded bits: of each group of bytes the first is coded, and the others are cut into digits, one beside each coded bit.
// EN 301 210, 4.6.3.
ghost use Rattle.std.specs.Prelude.{◌≡◌, ◌++◌, ℕ, ◌+◌, ◌*◌, ◌/◌, ◌<◌, ◌≤◌, length, get_or, drop};
ghost use Rattle.convolutional_code.specs.Bits.{Bits, bits_of};
ghost use Rattle.convolutional_code.specs.Code.{memory_after, block_mother};
ghost use Rattle.inner_code.specs.Groups.{firsts, digit_list, byte_digits, group_digits, coded_as, numbered, Fitting};

use crate::Block;
use code_tables::Grouping;
use convolutional_code::code_bytes;

// A block has at most so many groups.
const MOST_GROUPS: usize = 68;

// The first byte of each group.
fn encoded_bytes(block: &Block, size: usize, bytes: &mut [u8])
    requires { (0 < size) × (size * length bytes.old ≡ 204) }
    ensures { bytes.new ≡ firsts size (length bytes.old) block.now }
{
    for i in 0..bytes.len() {
        bytes[i] = block[size * i];
    }
}

// The last digits of a byte in a base, as many as the output takes.
// A base stays a byte: it comes from a mode's grouping, of which `Fitting` says all, and a byte is divided by it.
fn unpack_byte(b: u8, base: u8, output: &mut [u8])
    requires { 0 < base }
    ensures { output.new ≡ digit_list base (length output.old) b }
{
    let mut rest = b;
    for k in (0..output.len()).rev() {
        output[k] = rest % base;
        rest /= base;
    }
}

// The digits of the bytes of a group behind its first: eight.
fn unpack_group(bytes: &[u8], base: u8, per: usize, output: &mut [u8])
    requires { (0 < base) × (per * length bytes.now ≡ 8) × (length output.old ≡ 8) }
    ensures { output.new ≡ byte_digits base per bytes.now }
{
    for (j, b) in bytes.iter().enumerate() {
        let n = per * j;
        let end = n + per;
        unpack_byte(*b, base, &mut output[n..end]);
    }
}

// The same of each group of a block.
fn uncoded_digits(
    block: &Block,
    others: usize,
    base: u8,
    per: usize,
    groups: usize,
    uncoded: &mut [u8],
)
    requires { (0 < base)
        × (per * others ≡ 8)
        × ((others + 1) * groups ≡ 204)
        × (length uncoded.old ≡ 8 * groups) }
    ensures { uncoded.new ≡ group_digits others base per groups block.now }
{
    for i in 0..groups {
        let at = (others + 1) * i + 1;
        let behind = at + others;
        let n = 8 * i;
        let end = n + 8;
        unpack_group(&block[at..behind], base, per, &mut uncoded[n..end]);
    }
}

// The number of a symbol.
fn number(u: u8, c2: u8, c1: u8) -> u8
    requires { (u < 64) × (c2 < 2) × (c1 < 2) }
    ensures { result ≡ 4 * u + (2 * c2 + c1) }
{
    4 * u + (2 * c2 + c1)
}

// X or Y of the one bit of a pattern.
fn coded_bit(bit: usize, x: u8, y: u8) -> u8
    ensures { result ≡ coded_as bit x y }
{
    if bit < code_tables::Y1 { x } else { y }
}

// The symbols: the digits beside the two coded bits of each pattern.
fn sequence(uncoded: &[u8], coded: &[u8], c2: usize, c1: usize, output: &mut [u8])
    requires { ((n : ℕ) → get_or uncoded.now n 0 < 64)
        × (Bits coded.now)
        × (length uncoded.now ≤ 1632)
        × (length coded.now ≡ length uncoded.now + length uncoded.now)
        × (length uncoded.now ≤ length output.old) }
    ensures { output.new
        ≡ numbered c2 c1 uncoded.now coded.now (length uncoded.now) ++ drop (length uncoded.now) output.old }
{
    let count = uncoded.len();
    for n in 0..count {
        let x = coded[n];
        let y = coded[count + n];
        output[n] = number(uncoded[n], coded_bit(c2, x, y), coded_bit(c1, x, y));
    }
}

// Codes a block, and gives the memory after it. Four buffers are lent, as long as the number of groups asks: for the coded bytes, the digits, the bits
// of memory and coded bytes, and X and Y of each of them.
fn code_groups(
    memory: u8,
    block: &Block,
    g: Grouping,
    bytes: &mut [u8],
    uncoded: &mut [u8],
    history: &mut [u8],
    coded: &mut [u8],
    output: &mut [u8],
) -> u8
    requires { (memory < 64)
        × (Fitting g (8 / g.others) (length bytes.old))
        × (length uncoded.old ≡ 8 * length bytes.old)
        × (length history.old ≡ 8 * length bytes.old + 6)
        × (length coded.old ≡ 16 * length bytes.old)
        × (8 * length bytes.old ≤ length output.old) }
    ensures { (result ≡ memory_after memory (bits_of (firsts (g.others + 1) (length bytes.old) block.now)))
        × (output.new
        ≡ numbered g.c2 g.c1 (group_digits g.others g.base (8 / g.others) (length bytes.old) block.now)
        (block_mother memory (bits_of (firsts (g.others + 1) (length bytes.old) block.now))) (8 * length bytes.old)
        ++ drop (8 * length bytes.old) output.old) }
{
    let groups = bytes.len();
    encoded_bytes(block, g.others + 1, bytes);
    uncoded_digits(block, g.others, g.base, 8 / g.others, groups, uncoded);
    let next = code_bytes(memory, bytes, history, coded);
    sequence(uncoded, coded, g.c2, g.c1, output);
    next
}

// Codes a block by the grouping of its mode, and gives the memory after it.
pub fn code_grouped(memory: u8, block: &Block, g: Grouping, output: &mut [u8]) -> u8
    requires { (memory < 64)
        × (Fitting g (8 / g.others) (204 / (g.others + 1)))
        × (8 * (204 / (g.others + 1)) ≤ length output.old) }
    ensures { (result ≡ memory_after memory (bits_of (firsts (g.others + 1) (204 / (g.others + 1)) block.now)))
        × (output.new
        ≡ numbered g.c2 g.c1
        (group_digits g.others g.base (8 / g.others) (204 / (g.others + 1)) block.now)
        (block_mother memory (bits_of (firsts (g.others + 1) (204 / (g.others + 1)) block.now))) (8 * (204 / (g.others + 1)))
        ++ drop (8 * (204 / (g.others + 1))) output.old) }
{
    let groups = 204 / (g.others + 1);
    let mut bytes = [0u8; MOST_GROUPS];
    let mut uncoded = [0u8; 8 * MOST_GROUPS];
    let mut history = [0u8; 8 * MOST_GROUPS + 6];
    let mut coded = [0u8; 16 * MOST_GROUPS];
    code_groups(
        memory,
        block,
        g,
        &mut bytes[..groups],
        &mut uncoded[..8 * groups],
        &mut history[..8 * groups + 6],
        &mut coded[..16 * groups],
        output,
    )
}
