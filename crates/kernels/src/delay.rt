// The whole blocks of a buffer through a fresh interleaver.
ghost use Rattle.std.specs.Prelude.{◌≡◌, ◌++◌, ◌*◌, ◌/◌, ◌≤◌, length, drop};
ghost use Rattle.interleaver.specs.declared.branches.Side.TheVariants.{Sending};
ghost use Rattle.kernels.specs.Delay.{delayed_bytes};

use interleaver::Interleaver;

pub fn interleave_blocks(blocks: &[u8], output: &mut [u8])
    requires { length blocks.now ≤ length output.old }
    ensures { output.new ≡ delayed_bytes Sending blocks.now ++ drop (204 * (length blocks.now / 204)) output.old }
{
    let mut interleaver = Interleaver::new();
    for k in 0..blocks.len() / 204 {
        let at = 204 * k;
        let end = at + 204;
        let passed = interleaver.interleave(&blocks[at..end], &mut output[at..end]);
        interleaver = passed.unwrap_or(interleaver);
    }
}
