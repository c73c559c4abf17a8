// A pass: received bytes from an input, and their marks from another, piece after piece as they are read, until they end. The packets go to an output.
// Where the marks have ended, or there is no input for them, no byte is marked.
#![tactic(auto)]

ghost use Rattle.std.specs.Prelude.{◌≡◌, false, ◌++◌, ◌+◌, ◌-◌, ◌/◌, ◌≤◌, length, take, drop, replicate};
ghost use Rattle.program_io.specs.Checksum.{no_bytes};
ghost use Rattle.program_io.specs.Files.{input_trace, input_failed, output_trace, output_failed, Writes};
ghost use Rattle.report.specs.Text.{report_text};
ghost use Rattle.receiver_stream.specs.History.{ReceiverCame};
ghost use Rattle.receiver_stream.specs.Reporting.{stream_report};
ghost use Rattle.pass.specs.Pass.{first_above, MarksRead, HandsOn, ending_of, Passes};

use program_io::{Filled, Input, Output, System};
use receiver_stream::ReceiverStream;

// How a pass ended: all was read and taken; a read or a write failed; or there was a mark above 1 in this block.
#[derive(Clone, Copy)]
pub enum Ending {
    Whole,
    Failed,
    Refused(u64),
}

// What a pass came to.
#[derive(Clone, Copy)]
pub struct Pass {
    pub input: Input,
    pub marks: Input,
    pub output: Output,
    pub stream: ReceiverStream,
    pub ending: Ending,
}

// Sets a part of a buffer to 0.
fn clear(buffer: &mut [u8], from: usize, end: usize)
    requires { (from ≤ end) × (end ≤ length buffer.old) }
    ensures { buffer.new ≡ take from buffer.old ++ replicate (end - from) 0 ++ drop end buffer.old }
{
    buffer[from..end].fill(0);
}

// Reads the marks of so many bytes to the front of a buffer, with 0 for each byte for which none came.
fn read_marks(system: &mut System, marks: Input, buffer: &mut [u8], n: usize) -> Filled
    requires { n ≤ length buffer.old }
    ensures { MarksRead marks n buffer.new result }
{
    let filled = marks.fill(system, b"marks", &mut buffer[0..n]);
    clear(buffer, filled.length, n);
    filled
}

// The place of the first mark above 1, or how many marks there are.
fn first_above(marks: &[u8]) -> usize
    ensures { result ≡ first_above marks.now }
{
    for (i, mark) in marks.iter().enumerate() {
        if 1 < *mark {
            return i;
        }
    }
    marks.len()
}

// The block, counted from 0, of a byte that comes so many bytes after those that were taken.
fn block_of(stream: ReceiverStream, place: usize) -> u64
    requires { (stream.held + place ≤ 1000000) × (stream.receiver.counts.taken ≤ 4294967295) }
    ensures { result ≡ stream.receiver.counts.taken + (stream.held + place) / 204 }
{
    stream.receiver.counts.taken + ((stream.held + place) / 204) as u64
}

// Writes packets where they are wanted.
fn hand_on(
    system: &mut System,
    output: Output,
    wanted: bool,
    packets: &[u8],
    count: usize,
) -> Output
    requires { count ≤ length packets.now }
    ensures { HandsOn output wanted (take count packets.now) result }
{
    if wanted {
        return output.write(system, b"standard output", &packets[..count]);
    }
    output
}

// The ending where no byte more came.
fn ending_of(input: Input) -> Ending
    ensures { result ≡ ending_of (input_failed input) }
{
    if input.failed() {
        return Ending::Failed;
    }
    Ending::Whole
}

// Zeros, for pieces as long as a pipe has them.
pub fn buffer() -> [u8; 65536]
    ensures { 65536 ≡ length result }
{
    [0; 65536]
}

// A fresh stream receiver over the inputs, by way of these buffers, until the bytes end, a read or a write fails, a mark is none, or no more blocks can
// be counted.
pub fn receive_all(
    system: &mut System,
    input: Input,
    marks: Input,
    output: Output,
    wanted: bool,
    bytes: &mut [u8],
    own: &mut [u8],
    packets: &mut [u8],
) -> Pass
    requires { (input_trace input ≡ no_bytes)
        × (input_trace marks ≡ no_bytes)
        × (output_trace output ≡ no_bytes)
        × (output_failed output ≡ false)
        × (length bytes.old ≡ 65536)
        × (length own.old ≡ 65536)
        × (length packets.old ≡ 65536)
        × (input_failed marks ≡ false) }
    ensures { Passes input marks output wanted result }
{
    let mut input = input;
    let mut marks = marks;
    let mut output = output;
    let mut stream = ReceiverStream::new();
    // A `loop`: it ends where the input does.
    loop {
        let most = stream.capacity().min(bytes.len() as u64);
        let filled = input.read(system, b"standard input", bytes, most as usize);
        let n = filled.length;
        input = filled.input;
        if n == 0 {
            let ending = ending_of(input);
            return Pass {
                input,
                marks,
                output,
                stream,
                ending,
            };
        }
        let marked = read_marks(system, marks, own, n);
        let came = marked.length;
        marks = marked.input;
        if marks.failed() {
            return Pass {
                input,
                marks,
                output,
                stream,
                ending: Ending::Failed,
            };
        }
        let place = first_above(&own[..came]);
        if place < came {
            return Pass {
                input,
                marks,
                output,
                stream,
                ending: Ending::Refused(block_of(stream, place)),
            };
        }
        // The capacity and the marks were tested, and a piece has room for its packets.
        let Ok(fed) = stream.feed(&bytes[..n], &own[..n], packets) else {
            unreachable!()
        };
        output = hand_on(system, output, wanted, packets, fed.count);
        stream = fed.stream;
        if output.failed() {
            return Pass {
                input,
                marks,
                output,
                stream,
                ending: Ending::Failed,
            };
        }
    }
}

// Writes the report of a pass to an output. The text has room for any report.
pub fn write_report(system: &mut System, stream: ReceiverStream, output: Output) -> Output
    requires { ReceiverCame stream }
    ensures { Writes output (report_text (stream_report stream)) result }
{
    let mut text = [0u8; 320];
    let n = stream.report(&mut text).unwrap_or(0);
    output.write_text(system, b"report", &text[..n])
}
