// Where blocks come from: received symbols, by an acquisition, or decoded bits, which the reading of an acquisition holds that reads no symbols. A flag tells
// which come, so that there is one buffer of bits alone to hand on.
ghost use Rattle.std.specs.Prelude.{◌≡◌, ◌+◌, ◌<◌, length};
ghost use Rattle.common.specs.Lists.{All};
ghost use Rattle.lock_stream.specs.Source.{fresh_source, came_of, decoded_of, holding_bits, SourceReady, StepsSource, EndsSource};

use acquisition::bit_source::BitSource;
use acquisition::{Acquisition, Event, Reading};

// Whether bits come, and the acquisition that takes the symbols or holds the bits.
#[derive(Clone, Copy)]
pub struct LockSource {
    pub bits: bool,
    pub symbols: Acquisition,
}

// The source after a step, how many symbols or bits were taken, and what happened.
#[derive(Clone, Copy)]
pub struct SourceStep {
    pub source: LockSource,
    pub taken: usize,
    pub event: Event,
}

// The source after a step of the end, what happened, and, where that was all, how many bits are behind the last block of a lock that lasts.
#[derive(Clone, Copy)]
pub struct SourceEnd {
    pub source: LockSource,
    pub event: Event,
    pub over: Option<usize>,
}

// The bits that an acquisition holds.
fn decoded_of(symbols: Acquisition) -> BitSource
    ensures { result ≡ decoded_of symbols }
{
    BitSource {
        sync: symbols.reading.sync,
        used: symbols.reading.used,
        came: symbols.came,
    }
}

// The same acquisition with other bits.
fn holding_bits(symbols: Acquisition, decoded: BitSource) -> Acquisition
    ensures { result ≡ holding_bits symbols decoded }
{
    let reading = symbols.reading;
    let pending = symbols.pending;
    Acquisition {
        rate: symbols.rate,
        mirrored: symbols.mirrored,
        phase: symbols.phase,
        reading: Reading {
            turn: reading.turn,
            runs: reading.runs,
            sync: decoded.sync,
            first: reading.first,
            used: decoded.used,
        },
        pending,
        held: symbols.held,
        came: decoded.came,
    }
}

impl LockSource {
    // Nothing has come: bits, or symbols of a rate, 5 being any.
    pub fn new(bits: bool, rate: u8) -> LockSource
        requires { rate < 6 }
        ensures { (result ≡ fresh_source bits rate) × (SourceReady result) }
    {
        let symbols = Acquisition::new(rate);
        LockSource { bits, symbols }
    }

    // How many symbols or bits came.
    pub fn came(self) -> u64
        ensures { result ≡ came_of self }
    {
        self.symbols.came
    }

    // Takes some of the symbols or bits of a piece.
    pub fn step(self, piece: &[u8]) -> SourceStep
        requires { (SourceReady self) × (All (λ p. p < 81) piece.now) × (0 < length piece.now) × (came_of self + length piece.now < 1152921504606846976) }
        ensures { StepsSource self piece.now result }
    {
        let bits = self.bits;
        let symbols = self.symbols;
        if bits {
            let source = decoded_of(symbols);
            let step = source.step(piece);
            let next = holding_bits(symbols, step.source);
            return SourceStep {
                source: LockSource {
                    bits,
                    symbols: next,
                },
                taken: step.taken,
                event: step.event,
            };
        }
        let step = symbols.step(piece);
        SourceStep {
            source: LockSource {
                bits,
                symbols: step.acquisition,
            },
            taken: step.taken,
            event: step.event,
        }
    }

    // After the last piece, call after call until it is over.
    pub fn end_step(self) -> SourceEnd
        requires { SourceReady self }
        ensures { EndsSource self result }
    {
        let bits = self.bits;
        let symbols = self.symbols;
        if bits {
            let source = decoded_of(symbols);
            let step = source.end_step();
            let next = holding_bits(symbols, step.source);
            return SourceEnd {
                source: LockSource {
                    bits,
                    symbols: next,
                },
                event: step.event,
                over: step.over,
            };
        }
        let step = symbols.end_step();
        SourceEnd {
            source: LockSource {
                bits,
                symbols: step.acquisition,
            },
            event: step.event,
            over: step.over,
        }
    }
}
