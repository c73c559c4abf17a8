// Reading in progress: received symbols from pieces of any length, read in runs that overlap, and the bits packed into bytes. Symbols whose bits are not
// decided yet are held, and the bits that fill no byte yet.
// A symbol comes as one number, the pair of the decisions on its I and Q, whether they are hard or soft ones.
// Inner: its functions may require what the crates above have tested. docs/ARCHITECTURE.md names the public surface.
#![tactic(auto)]

ghost use Rattle.std.specs.Prelude.{◌+◌, ◌*◌, ◌<◌, ◌≤◌, length};
ghost use Rattle.common.specs.Lists.{All};
ghost use Rattle.puncturing.specs.Mode.{qpsk_count};
ghost use Rattle.reader_stream.specs.Stream.{ReaderReady, FreshReader, FeedsReader, FinishesReader};

use crate::symbol_runs::SymbolRuns;
use bit_packing::pack;

pub mod symbol_runs;

// The runs in progress, and the bits that fill no byte yet, which are the last `held` of `carry`.
#[derive(Clone, Copy)]
pub struct ReaderStream {
    pub runs: SymbolRuns,
    pub carry: u8,
    pub held: usize,
}

// The stream after a piece, and how many bytes its bits filled.
#[derive(Clone, Copy)]
pub struct ReaderFed {
    pub stream: ReaderStream,
    pub count: usize,
}

// How many bytes the last bits filled, how many symbols make no whole pattern, and how many bits no whole byte.
#[derive(Clone, Copy)]
pub struct Finished {
    pub count: usize,
    pub rest: usize,
    pub bits: usize,
}

impl ReaderStream {
    // A rate below 5 stays a fact beside the number: the calls above take any number, and refuse one that is no rate.
    pub fn new(rate: u8) -> ReaderStream
        requires { rate < qpsk_count }
        ensures { FreshReader rate result }
    {
        let runs = crate::symbol_runs::open(rate);
        ReaderStream {
            runs,
            carry: 0,
            held: 0,
        }
    }

    // Takes the pairs of symbols. The bytes that the bits fill stand at the front of the output, which has room for two bits of each symbol that is held or comes,
    // behind those that are held. A run is read into `bits`.
    pub fn feed(self, pairs: &[u8], bits: &mut [u8], output: &mut [u8]) -> ReaderFed
        requires { (ReaderReady self) × (All (λ p. p < 81) pairs.now) × (1632 ≤ length bits.old) × (self.held + 2 * (self.runs.count + length pairs.now) < 8 * length output.old + 8) }
        ensures { FeedsReader self pairs.now output.old result.stream result.count output.new }
    {
        let mut runs = self.runs;
        let mut carry = self.carry;
        let mut held = self.held;
        let mut count: usize = 0;
        let mut at: usize = 0;
        // A `while`: each step is as long as what a call took.
        while at < pairs.len() {
            let taken = crate::symbol_runs::feed(runs, &pairs[at..], bits);
            runs = taken.runs;
            let packed = pack(carry, held, &bits[..taken.count], &mut output[count..]);
            carry = packed.carry;
            held = packed.held;
            count += packed.count;
            at += taken.taken;
        }
        ReaderFed {
            stream: ReaderStream { runs, carry, held },
            count,
        }
    }

    // The end: the bytes that the bits held and those of the whole patterns that are left fill, at the front of the output.
    pub fn finish(self, bits: &mut [u8], output: &mut [u8]) -> Finished
        requires { (ReaderReady self) × (1632 ≤ length bits.old) × (204 ≤ length output.old) }
        ensures { FinishesReader self output.old result output.new }
    {
        let closed = crate::symbol_runs::close(self.runs, bits);
        let packed = pack(self.carry, self.held, &bits[..closed.count], output);
        Finished {
            count: packed.count,
            rest: closed.rest,
            bits: packed.held,
        }
    }
}
