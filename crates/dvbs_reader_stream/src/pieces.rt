// A reader fed with any number of symbols or points: the decisions on some of them at a time.
ghost use Rattle.std.specs.Prelude.{◌≡◌, map, ◌+◌, ◌*◌, ◌<◌, length};
ghost use Rattle.common.specs.Lists.{All};
ghost use Rattle.branch_metrics.specs.Cost.{received_of};
ghost use Rattle.branch_metrics.specs.SoftPairs.{symbol_pair};
ghost use Rattle.reader.specs.Decisions.{hard_pair};
ghost use Rattle.reader_stream.specs.Stream.{ReaderReady, FeedsReader};

use branch_metrics::soft_decision::soft_pairs;
use reader::hard_pairs;
use reader_stream::{ReaderFed, ReaderStream};

// Takes symbols. The bytes that their bits fill stand at the front of the output.
pub fn feed_symbols(stream: ReaderStream, symbols: &[u8], output: &mut [u8]) -> ReaderFed
    requires { (ReaderReady stream) × (All (λ s. s < 4) symbols.now) × (stream.held + 2 * (stream.runs.count + length symbols.now) < 8 * length output.old + 8) }
    ensures { FeedsReader stream (map hard_pair symbols.now) output.old result.stream result.count output.new }
{
    let mut pairs = [0u8; 1632];
    let mut bits = [0u8; 1632];
    let mut next = stream;
    let mut count: usize = 0;
    let mut at: usize = 0;
    // A `while`: each step takes as many symbols as the list of pairs holds, or those that are left.
    while at < symbols.len() {
        let some = (symbols.len() - at).min(1632);
        let end = at + some;
        hard_pairs(&symbols[at..end], &mut pairs);
        let fed = next.feed(&pairs[..some], &mut bits, &mut output[count..]);
        next = fed.stream;
        count += fed.count;
        at = end;
    }
    ReaderFed {
        stream: next,
        count,
    }
}

// Takes points, and lost symbols, as lists of one length.
pub fn feed_points(
    stream: ReaderStream,
    is: &[f32],
    qs: &[f32],
    lost: &[u8],
    output: &mut [u8],
) -> ReaderFed
    requires { (ReaderReady stream) × (length qs.now ≡ length is.now) × (length lost.now ≡ length is.now) × (stream.held + 2 * (stream.runs.count + length is.now) < 8 * length output.old + 8) }
    ensures { FeedsReader stream (map symbol_pair (received_of is.now qs.now lost.now)) output.old result.stream result.count output.new }
{
    let mut pairs = [0u8; 1632];
    let mut bits = [0u8; 1632];
    let mut next = stream;
    let mut count: usize = 0;
    let mut at: usize = 0;
    // A `while`, as above.
    while at < is.len() {
        let some = (is.len() - at).min(1632);
        let end = at + some;
        soft_pairs(&is[at..end], &qs[at..end], &lost[at..end], &mut pairs);
        let fed = next.feed(&pairs[..some], &mut bits, &mut output[count..]);
        next = fed.stream;
        count += fed.count;
        at = end;
    }
    ReaderFed {
        stream: next,
        count,
    }
}
