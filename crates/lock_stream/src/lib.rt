// Packets and lines from received symbols that begin anywhere, turned any way, or from decoded bits that begin anywhere: a value that is fed with pieces, step
// after step. docs/ACQUISITION.md says what is decided and told.
// Inner: its functions may require what the crates above have tested. docs/ARCHITECTURE.md names the public surface.
#![tactic(auto)]

ghost use Rattle.std.specs.Prelude.{◌≡◌, true, ◌+◌, ◌<◌, ◌≤◌, length};
ghost use Rattle.common.specs.Lists.{All};
ghost use Rattle.report_lines.specs.Line.{Appended};
ghost use Rattle.lock_receiver.specs.Take.{lock_in_range};
ghost use Rattle.acquisition.specs.Reading.{RateKnown};
ghost use Rattle.lock_stream.specs.Progress.{closing_text, TellsEvent};
ghost use Rattle.lock_stream.specs.Source.{came_of};
ghost use Rattle.lock_stream.specs.Stream.{fresh_stream, StreamReady, StepsStream, EndsStream};

use acquisition::Event;

pub mod progress;
pub mod source;

use progress::{LockProgress, Told};
use source::LockSource;

// The source, and what was given and told of locks.
#[derive(Clone, Copy)]
pub struct LockStream {
    pub source: LockSource,
    pub progress: LockProgress,
}

// The stream after a step, how many symbols or bits were taken, and how many bytes of packets and of text were written.
#[derive(Clone, Copy)]
pub struct StreamStep {
    pub stream: LockStream,
    pub taken: usize,
    pub packets: usize,
    pub text: usize,
}

// The stream after a step of the end, how many bytes of packets and of text were written, and, where that was all, how many bits are behind the last block of a
// lock that lasts.
#[derive(Clone, Copy)]
pub struct StreamEnd {
    pub stream: LockStream,
    pub packets: usize,
    pub text: usize,
    pub over: Option<usize>,
}

// Writes the packets that an event gives, and the lines that it tells.
fn tell(
    bits: bool,
    progress: LockProgress,
    event: Event,
    packets: &mut [u8],
    text: &mut [u8],
) -> Told
    requires { (lock_in_range progress.receiver ≡ true) × (RateKnown event) × (1504 ≤ length packets.old) × (2048 ≤ length text.old) }
    ensures { TellsEvent bits progress event result packets.new text.new }
{
    match event {
        Event::Waits => Told {
            progress,
            packets: 0,
            text: 0,
        },
        Event::Block(block) => crate::progress::tell_block(bits, progress, block, packets, text),
        Event::Lost => crate::progress::tell_lost(bits, progress, text),
    }
}

impl LockStream {
    // Nothing has come: bits, or symbols of a rate, 5 being any.
    pub fn new(bits: bool, rate: u8) -> LockStream
        requires { rate < 6 }
        ensures { (result ≡ fresh_stream bits rate) × (StreamReady result) }
    {
        let source = LockSource::new(bits, rate);
        let progress = LockProgress::new();
        LockStream { source, progress }
    }

    // Takes some of the symbols or bits of a piece, and writes the packets and the lines that they decide.
    pub fn step(self, piece: &[u8], packets: &mut [u8], text: &mut [u8]) -> StreamStep
        requires { (StreamReady self) × (All (λ p. p < 81) piece.now) × (0 < length piece.now) × (came_of self.source + length piece.now < 1152921504606846976)
            × (1504 ≤ length packets.old) × (2048 ≤ length text.old) }
        ensures { StepsStream self piece.now result packets.new text.new }
    {
        let step = self.source.step(piece);
        let told = tell(self.source.bits, self.progress, step.event, packets, text);
        StreamStep {
            stream: LockStream {
                source: step.source,
                progress: told.progress,
            },
            taken: step.taken,
            packets: told.packets,
            text: told.text,
        }
    }

    // After the last piece, call after call until it is over: writes the packets and the lines that the end decides.
    pub fn end_step(self, packets: &mut [u8], text: &mut [u8]) -> StreamEnd
        requires { (StreamReady self) × (1504 ≤ length packets.old) × (2048 ≤ length text.old) }
        ensures { EndsStream self result packets.new text.new }
    {
        let step = self.source.end_step();
        let told = tell(self.source.bits, self.progress, step.event, packets, text);
        StreamEnd {
            stream: LockStream {
                source: step.source,
                progress: told.progress,
            },
            packets: told.packets,
            text: told.text,
            over: step.over,
        }
    }

    // Writes the last lines, where the end is over: so many bits are behind the last block, and so many bytes behind the last whole point.
    pub fn close(self, left: usize, bytes: u64, text: &mut [u8]) -> usize
        requires { (StreamReady self) × (left < 1632) × (1024 ≤ length text.old) }
        ensures { Appended (closing_text self.source.bits self.progress (came_of self.source) left bytes) text.old text.new 0 result 1024 }
    {
        let source = self.source;
        crate::progress::put_closing(source.bits, self.progress, source.came(), left, bytes, text)
    }
}
