// The whole blocks of a buffer through a fresh inner coder.
ghost use Rattle.std.specs.Prelude.{◌≡◌, true, ◌++◌, ◌*◌, ◌≤◌, length, drop};
ghost use Rattle.puncturing.specs.Mode.{mode_of};
ghost use Rattle.kernels.specs.Code.{coded_symbols};

use inner_code::{Encoded, InnerCoder};

// Gives the number of symbols.
pub fn code_blocks(rate: u8, blocks: &[u8], output: &mut [u8]) -> usize
    requires { ((mode_of rate).sent ≡ true) × (8 * length blocks.now ≤ length output.old) }
    ensures { (result ≡ length (coded_symbols rate blocks.now))
        × (output.new ≡ coded_symbols rate blocks.now ++ drop (length (coded_symbols rate blocks.now)) output.old) }
{
    let mut coder = InnerCoder::fresh(rate);
    let mut count: usize = 0;
    for k in 0..blocks.len() / 204 {
        let at = 204 * k;
        let end = at + 204;
        let encoded = coder
            .encode(&blocks[at..end], &mut output[count..])
            .unwrap_or(Encoded { coder, count: 0 });
        coder = encoded.coder;
        count += encoded.count;
    }
    count
}
