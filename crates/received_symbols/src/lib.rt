// The bytes of received symbols, taken by a reader: hard decisions, one byte each, or points for soft ones, eight bytes each. The bytes of a point that is not
// whole yet are held.
// Inner: its functions may require what the crates above have tested. docs/ARCHITECTURE.md names the public surface.
#![tactic(auto)]

ghost use Rattle.std.specs.Prelude.{◌+◌, ◌*◌, ◌/◌, ◌≤◌, length};
ghost use Rattle.reader_stream.specs.Stream.{ReaderReady};
ghost use Rattle.received_symbols.specs.Received.{width};
ghost use Rattle.received_symbols.specs.Pass.{TakesBytes};

use reader_stream::ReaderStream;

mod points;
mod symbols;

pub use points::point_pairs;

// A reader, and the bytes of a point that is not whole yet: so many of the tail. An array with a count, since no memory is taken for it.
#[derive(Clone, Copy)]
pub struct SymbolPass {
    pub stream: ReaderStream,
    pub tail: [u8; 8],
    pub held: usize,
}

// What was taken of some bytes: the pass after it, how many bytes, whether the byte behind them is no symbol, and how many bytes stand in the output.
// That it stopped is no refusal: what was taken before that byte stands.
#[derive(Clone, Copy)]
pub struct SymbolsTaken {
    pub pass: SymbolPass,
    pub taken: usize,
    pub stopped: bool,
    pub count: usize,
}

// Takes the symbols of some bytes. The lists for pairs and bits are lent, so that they are made once and not for each piece; in a struct each call would take
// them out again. That the reader is ready stays a fact, `ReaderReady`: its numbers are public.
pub fn take_bytes(
    soft: bool,
    stream: ReaderStream,
    bytes: &[u8],
    pairs: &mut [u8],
    bits: &mut [u8],
    output: &mut [u8],
) -> SymbolsTaken
    requires { (ReaderReady stream) × (length bytes.now / width soft ≤ length pairs.old) × (1632 ≤ length bits.old) × (length bytes.now / width soft + 1632 ≤ 4 * length output.old) }
    ensures { TakesBytes soft stream bytes.now output.old result output.new }
{
    if soft {
        return crate::points::take_points(stream, bytes, pairs, bits, output);
    }
    crate::symbols::take_symbols(stream, bytes, pairs, bits, output)
}
