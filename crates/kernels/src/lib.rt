// Stages that the library does not export, for the benchmark and the tests alone. They are functions for C, and take whatever they are lent.
// A slice is a pointer and a length; slices of one call must not overlap.
#![tactic(auto)]

ghost use Rattle.std.specs.Prelude.{◌≡◌};
ghost use Rattle.interleaver.specs.declared.branches.Side.TheVariants.{Sending};
ghost use Rattle.kernels.specs.Scale.{scale_output};
ghost use Rattle.kernels.specs.Delay.{delay_output};
ghost use Rattle.kernels.specs.Code.{code_count, code_output};

mod code;
mod delay;
mod lanes;

use code::code_blocks;
use delay::interleave_blocks;
use lanes::scale_by;
use puncturing::is_sent;

// Multiplies the first sixteen bytes by each factor, one after the other. Fewer than sixteen stay as they are.
#[unsafe(no_mangle)]
pub extern "C" fn kernel_scale(lanes: &mut [u8], factors: &[u8])
    ensures { lanes.new ≡ scale_output factors.now lanes.old }
{
    if lanes.len() < 16 {
        return;
    }
    let last = scale_by(common::array_at(lanes, 0), factors);
    common::put(&last, 0, lanes);
}

// Interleaves the whole blocks of 204 bytes, from fresh branches. An output shorter than the blocks stays as it is.
#[unsafe(no_mangle)]
pub extern "C" fn kernel_interleave(blocks: &[u8], output: &mut [u8])
    ensures { output.new ≡ delay_output Sending blocks.now output.old }
{
    if output.len() < blocks.len() {
        return;
    }
    interleave_blocks(blocks, output);
}

// Codes the whole blocks of 204 bytes with a fresh inner coder: the number of symbols written.
// Nothing is written where the mode is not sent, or less room than a symbol for each bit.
#[unsafe(no_mangle)]
pub extern "C" fn kernel_inner_code(rate: u8, blocks: &[u8], output: &mut [u8]) -> u64
    ensures { (result ≡ code_count rate blocks.now output.old)
        × (output.new ≡ code_output rate blocks.now output.old) }
{
    if !is_sent(rate) {
        return 0;
    }
    if output.len() / 8 < blocks.len() {
        return 0;
    }
    code_blocks(rate, blocks, output) as u64
}
