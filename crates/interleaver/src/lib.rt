// Convolutional interleaving and its removal: EN 300 421, 4.4.2.
#![tactic(auto)]

ghost use Rattle.std.specs.Prelude.{◌≡◌};
ghost use Rattle.answer.specs.Number.{answered, given_or};
ghost use Rattle.interleaver.specs.Branch.{branches_in_range};
ghost use Rattle.interleaver.specs.Block.{fresh};
ghost use Rattle.interleaver.specs.Call.{pass_number, pass_branches, pass_output};

pub mod branches;

use answer::Refusal;
use branches::{Branches, Side, pass_block, positions_within};

// The sending side. The two sides are types of their own, so that the state of one is not given to the other; their work is one function, `pass`.
// One generic type over the side is no plainer: the two calls have names of their own, so that only `new` and `in_range` would be shared, and these would first
// have to make the constant of the type into a side.
#[derive(Clone, Copy)]
pub struct Interleaver {
    pub branches: Branches,
}

// The receiving side.
#[derive(Clone, Copy)]
pub struct Deinterleaver {
    pub branches: Branches,
}

// The tests, and the work.
fn pass(
    side: Side,
    branches: Branches,
    block: &[u8],
    output: &mut [u8],
) -> Result<Branches, Refusal>
    ensures { (answered result ≡ pass_number side branches block.now output.old)
        × (given_or branches (λ b. b) result ≡ pass_branches side branches block.now output.old)
        × (output.new ≡ pass_output side branches block.now output.old) }
{
    if !positions_within(side, branches.positions) {
        return Err(Refusal::StateRange);
    }
    if block.len() != 204 {
        return Err(Refusal::BlockLength);
    }
    if output.len() < 204 {
        return Err(Refusal::OutputLength);
    }
    Ok(pass_block(side, branches, block, output))
}

impl Interleaver {
    // Branches whose cells are all 0.
    pub fn new() -> Interleaver
        ensures { result.branches ≡ fresh }
    {
        Interleaver {
            branches: Branches::new(),
        }
    }

    // Whether each position is within its branch.
    pub fn in_range(self) -> bool
        ensures { result ≡ branches_in_range Side.Sending self.branches }
    {
        positions_within(Side::Sending, self.branches.positions)
    }

    // Puts a block in, and writes the block that leaves: the sending side after it.
    pub fn interleave(self, block: &[u8], output: &mut [u8]) -> Result<Interleaver, Refusal>
        ensures { (answered result ≡ pass_number Side.Sending self.branches block.now output.old)
            × (given_or self.branches (λ after. after.branches) result ≡ pass_branches Side.Sending self.branches block.now output.old)
            × (output.new ≡ pass_output Side.Sending self.branches block.now output.old) }
    {
        let branches = pass(Side::Sending, self.branches, block, output)?;
        Ok(Interleaver { branches })
    }
}

impl Deinterleaver {
    // Branches whose cells are all 0.
    pub fn new() -> Deinterleaver
        ensures { result.branches ≡ fresh }
    {
        Deinterleaver {
            branches: Branches::new(),
        }
    }

    // Whether each position is within its branch.
    pub fn in_range(self) -> bool
        ensures { result ≡ branches_in_range Side.Receiving self.branches }
    {
        positions_within(Side::Receiving, self.branches.positions)
    }

    // Puts a block in, and writes the block that leaves: the receiving side after it.
    pub fn deinterleave(self, block: &[u8], output: &mut [u8]) -> Result<Deinterleaver, Refusal>
        ensures { (answered result ≡ pass_number Side.Receiving self.branches block.now output.old)
            × (given_or self.branches (λ after. after.branches) result ≡ pass_branches Side.Receiving self.branches block.now output.old)
            × (output.new ≡ pass_output Side.Receiving self.branches block.now output.old) }
    {
        let branches = pass(Side::Receiving, self.branches, block, output)?;
        Ok(Deinterleaver { branches })
    }
}
