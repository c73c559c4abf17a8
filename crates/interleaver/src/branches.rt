// The delay branches of convolutional interleaving: EN 300 421, 4.4.2.
// Inner: its functions may require what the crates above have tested. docs/ARCHITECTURE.md names the public surface.
ghost use Rattle.std.specs.Prelude.{◌≡◌, true, ◌++◌, ◌+◌, ◌<◌, ◌≤◌, max, eqb, length, drop};
ghost use Rattle.common.specs.Choice.{pick};
ghost use Rattle.interleaver.specs.Branch.{laid, delay_of, positions_within, branches_in_range};
ghost use Rattle.interleaver.specs.Column.{column, scattered};
ghost use Rattle.interleaver.specs.Block.{fresh, block_out, branches_after, position_after, position_advanced, Exchanged};

// The side of the line that the branches stand on.
#[derive(Clone, Copy)]
pub enum Side {
    Sending,
    Receiving,
}

// The cells of the twelve branches, one branch after the other, and the next cell of each.
#[derive(Clone, Copy)]
pub struct Branches {
    pub cells: [u8; 1122],
    pub positions: [u8; 12],
}

impl Side {
    // By how many blocks branch j delays its bytes. A branch's number stays a number below 12: it counts places of a block and cells.
    fn delay(self, j: usize) -> usize
        requires { j < 12 }
        ensures { result ≡ delay_of self j }
    {
        match self {
            Side::Sending => j,
            Side::Receiving => 11 - j,
        }
    }
}

impl Branches {
    // All cells are 0.
    pub fn new() -> Branches
        ensures { result ≡ fresh }
    {
        let cells = [0u8; 1122];
        let positions = [0u8; 12];
        Branches { cells, positions }
    }
}

// Whether each position is within its branch.
pub fn positions_within(side: Side, positions: [u8; 12]) -> bool
    ensures { result ≡ positions_within side positions 12 }
{
    for j in 0..12 {
        let size = 17 * side.delay(j);
        let position = positions[j] as usize;
        if position >= size.max(1) {
            return false;
        }
    }
    true
}

// A branch's number j, the block and the output go on to each loop below, which reads and writes every twelfth byte in place. Taken out into seventeen bytes
// first, so that what changes the cells would need none of the three, a branch costs more: the same code in C takes 1991 instructions a block instead of 1162.
// The block and the output stay slices, since the calls above hold slices and have tested their lengths.
// Copies the bytes of branch j.
fn copy_column(j: usize, block: &[u8], output: &mut [u8])
    requires { (j < 12) × (length block.now ≡ 204) × (204 ≤ length output.old) }
    ensures { output.new ≡ scattered j (column j block.now) output.old }
{
    for k in 0..17 {
        let n = 12 * k + j;
        output[n] = block[n];
    }
}

// The cell that is used after cell p.
fn next_of(size: usize, p: usize) -> usize
    requires { p < size }
    ensures { result ≡ pick (eqb (p + 1) size) 0 (p + 1) }
{
    if p + 1 == size { 0 } else { p + 1 }
}

// Puts the bytes of branch j into its cells, from a position on, and takes out those that were there. Gives the next position.
// For 17 cells that follow each other. From fresh branches on it is always so, as each branch has a multiple of 17 cells.
fn exchange_row(
    cells: &mut [u8],
    position: usize,
    j: usize,
    block: &[u8],
    output: &mut [u8],
) -> usize
    requires { (position + 17 ≤ length cells.old)
        × (j < 12) × (length block.now ≡ 204) × (204 ≤ length output.old) }
    ensures { Exchanged j block.now cells.old position output.old (position_advanced (length cells.old) position 17) result cells.new output.new }
{
    for k in 0..17 {
        let n = 12 * k + j;
        let p = position + k;
        let out = cells[p];
        cells[p] = block[n];
        output[n] = out;
    }
    next_of(cells.len(), position + 16)
}

// The same with a test at each cell of whether it is the last.
fn exchange_round(
    cells: &mut [u8],
    position: usize,
    j: usize,
    block: &[u8],
    output: &mut [u8],
) -> usize
    requires { (17 ≤ length cells.old) × (position < length cells.old)
        × (j < 12) × (length block.now ≡ 204) × (204 ≤ length output.old) }
    ensures { Exchanged j block.now cells.old position output.old (position_advanced (length cells.old) position 17) result cells.new output.new }
{
    let size = cells.len();
    let mut p = position;
    for k in 0..17 {
        let n = 12 * k + j;
        let out = cells[p];
        cells[p] = block[n];
        output[n] = out;
        p = next_of(size, p);
    }
    p
}

// Puts the bytes of branch j into its cells, from a position on, and takes out those that were there. Gives the next position.
fn exchange_column(
    cells: &mut [u8],
    position: usize,
    j: usize,
    block: &[u8],
    output: &mut [u8],
) -> usize
    requires { (17 ≤ length cells.old) × (position < length cells.old)
        × (j < 12) × (length block.now ≡ 204) × (204 ≤ length output.old) }
    ensures { Exchanged j block.now cells.old position output.old (position_advanced (length cells.old) position 17) result cells.new output.new }
{
    if cells.len() - position >= 17 {
        return exchange_row(cells, position, j, block, output);
    }
    exchange_round(cells, position, j, block, output)
}

// Puts the bytes of branch j through its cells, if it has any.
fn pass_column(cells: &mut [u8], position: u8, j: usize, block: &[u8], output: &mut [u8]) -> u8
    requires { ((length cells.old ≡ 0 → ⊥) → 17 ≤ length cells.old) × (length cells.old ≤ 187) × (position < max 1 (length cells.old))
        × (j < 12) × (length block.now ≡ 204) × (204 ≤ length output.old) }
    ensures { Exchanged j block.now cells.old position output.old (position_after (length cells.old) position) result cells.new output.new }
{
    if cells.len() == 0 {
        copy_column(j, block, output);
        return position;
    }
    exchange_column(cells, position as usize, j, block, output) as u8
}

// Puts a block through cells by positions that are in range. Gives the next positions.
pub fn pass_cells(
    side: Side,
    cells: &mut [u8],
    positions: [u8; 12],
    block: &[u8],
    output: &mut [u8],
) -> [u8; 12]
    requires { (positions_within side positions 12 ≡ true) × (length cells.old ≡ 1122) × (length block.now ≡ 204) × (204 ≤ length output.old) }
    ensures { (result ≡ (branches_after side (laid cells.old positions) block.now).positions)
        × (cells.new ≡ (branches_after side (laid cells.old positions) block.now).cells)
        × (output.new ≡ block_out side (laid cells.old positions) block.now ++ drop 204 output.old) }
{
    let mut next = positions;
    let mut base: usize = 0;
    for j in 0..12 {
        let end = base + 17 * side.delay(j);
        let position = next[j];
        next[j] = pass_column(&mut cells[base..end], position, j, block, output);
        base = end;
    }
    next
}

// Puts a block through branches whose positions are in range.
pub fn pass_block(side: Side, branches: Branches, block: &[u8], output: &mut [u8]) -> Branches
    requires { (branches_in_range side branches ≡ true) × (length block.now ≡ 204) × (204 ≤ length output.old) }
    ensures { (result ≡ branches_after side branches block.now)
        × (output.new ≡ block_out side branches block.now ++ drop 204 output.old) }
{
    let mut cells = branches.cells;
    let before = branches.positions;
    let positions = pass_cells(side, &mut cells, before, block, output);
    Branches { cells, positions }
}
