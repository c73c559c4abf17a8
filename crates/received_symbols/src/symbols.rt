// Hard decisions: the bytes of symbols, one each, are taken up to the first that is none.
ghost use Rattle.std.specs.Prelude.{◌≡◌, ◌+◌, ◌*◌, ◌≤◌, false, length, nat_lt, take_while};
ghost use Rattle.reader_stream.specs.Stream.{ReaderReady};
ghost use Rattle.received_symbols.specs.Pass.{TakesBytes};

use crate::{SymbolPass, SymbolsTaken};
use reader::hard_pairs;
use reader_stream::ReaderStream;

// How many bytes at the front are symbols.
fn symbols_in(bytes: &[u8]) -> usize
    ensures { result ≡ length (take_while (λ b. nat_lt b 4) bytes.now) }
{
    bytes.iter().take_while(|b| **b < 4).count()
}

// Takes the symbols of some bytes, up to the first byte that is none.
pub fn take_symbols(
    stream: ReaderStream,
    bytes: &[u8],
    pairs: &mut [u8],
    bits: &mut [u8],
    output: &mut [u8],
) -> SymbolsTaken
    requires { (ReaderReady stream) × (length bytes.now ≤ length pairs.old) × (1632 ≤ length bits.old) × (length bytes.now + 1632 ≤ 4 * length output.old) }
    ensures { TakesBytes false stream bytes.now output.old result output.new }
{
    let taken = symbols_in(bytes);
    hard_pairs(&bytes[..taken], pairs);
    let fed = stream.feed(&pairs[..taken], bits, output);
    SymbolsTaken {
        pass: SymbolPass {
            stream: fed.stream,
            tail: [0; 8],
            held: 0,
        },
        taken,
        stopped: taken < bytes.len(),
        count: fed.count,
    }
}
