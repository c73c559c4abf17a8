// dvbs_send [--flush] MODE < packets > symbols
// Sends the transport packets of standard input in a mode that is sent, and writes the symbols, one byte each, to standard output. On standard error it
// tells each packet that it replaced by a null packet, and at the end how many packets there were, how many of them it replaced, and how many bytes
// came after the last. The last eleven packets stay in the delays of the interleaver: --flush sends eleven null packets after them, which take them out.
// Status 0: all was read, sent and told; 1: something failed, and the counts are not told; 2: a wrong call.
#![tactic(auto)]

ghost use Rattle.std.specs.Prelude.{◌≡◌, true, ◌+◌, ◌≤◌, ◌<◌, pos, length};
ghost use Rattle.inner_code.specs.Encode.{new_number};
ghost use Rattle.program_io.specs.Words.{word_bytes};
ghost use Rattle.program_io.specs.Files.{StandardInput, FreshOutput, input_over, Writes};
ghost use Rattle.common.specs.Choice.{unequal};
ghost use Rattle.dvbs_send.specs.Lines.{answer_line, answer_lines, replaced_count, counts_line};
ghost use Rattle.dvbs_send.specs.Ends.{SentSome, SendsPiece, SendsLast, SendsEnd, Going, Ends, request_of, Called, Exits};

use program_io::{Arguments, Asked, Ended, Input, Output, System, Word};
use sender_stream::SenderStream;
use std::process::ExitCode;

mod lines;

// What the words of a call ask for. Mode 6 is none: the definitions in specs/Ends.antt count with it.
#[derive(Clone, Copy)]
pub struct SendRequest {
    pub mode: u8,
    pub flush: bool,
}

// Sending in progress: how many bytes came, and how many of their packets were replaced.
#[derive(Clone, Copy)]
pub struct Sending {
    pub stream: SenderStream,
    pub output: Output,
    pub errors: Output,
    pub came: u64,
    pub replaced: u64,
}

// Standard error after the lines of some packets, and how many of them were replaced.
#[derive(Clone, Copy)]
struct PacketsTold {
    errors: Output,
    replaced: u64,
}

// More bytes than this are never counted: a proved loop has to end, and nothing says that an input does.
const MOST: u64 = 9223372036854775808;

// Tells of a packet, where it was replaced.
fn tell_answer(system: &mut System, told: PacketsTold, packet: u64, number: u8) -> PacketsTold
    requires { told.replaced < 18446744073709551615 }
    ensures { (Writes told.errors (answer_line packet number) result.errors) × (result.replaced ≡ told.replaced + unequal number 0) }
{
    if number == 0 {
        return told;
    }
    let errors = told.errors;
    let mut text = [0u8; 96];
    let n = lines::replaced_line(packet, number as u64, &mut text);
    let errors = errors.write(system, b"standard error", &text[..n]);
    PacketsTold {
        errors,
        replaced: told.replaced + 1,
    }
}

// Tells of each that was replaced of some packets, of which the first has this number. Where none was, which is nearly always, no packet is looked at by
// itself.
fn tell_answers(system: &mut System, errors: Output, first: u64, answers: &[u8]) -> PacketsTold
    requires { first + length answers.now < 18446744073709551616 }
    ensures { (Writes errors (answer_lines first answers.now) result.errors) × (result.replaced ≡ replaced_count answers.now) }
{
    if common::largest_of(answers) == 0 {
        return PacketsTold {
            errors,
            replaced: 0,
        };
    }
    let mut told = PacketsTold {
        errors,
        replaced: 0,
    };
    for (i, answer) in answers.iter().enumerate() {
        let next = tell_answer(system, told, first + i as u64, *answer);
        told = next;
    }
    told
}

// Tells the counts.
fn tell_counts(
    system: &mut System,
    errors: Output,
    packets: u64,
    replaced: u64,
    rest: u64,
) -> Output
    ensures { Writes errors (counts_line packets replaced rest) result }
{
    let mut text = [0u8; 96];
    let n = lines::counts_line(packets, replaced, rest, &mut text);
    errors.write_text(system, b"standard error", &text[..n])
}

// Sends what a read brought: writes the symbols of the packets that are whole with it, and then tells which of them were replaced.
fn send_piece(
    system: &mut System,
    mode: u8,
    sending: Sending,
    piece: &[u8],
    symbols: &mut [u8],
    answers: &mut [u8],
) -> Sending
    requires { (SentSome mode sending)
        × (sending.came < 9223372036854775808)
        × (length piece.now ≤ 12032)
        × (length symbols.old ≡ 104448)
        × (length answers.old ≡ 64) }
    ensures { SendsPiece mode sending piece.now result }
{
    let stream = sending.stream;
    let output = sending.output;
    let errors = sending.errors;
    let came = sending.came;
    let replaced = sending.replaced;
    // The mode is one that is sent, and there is room for what a piece gives.
    let Ok(fed) = stream.feed(piece, symbols, answers) else {
        unreachable!()
    };
    let count = fed.count;
    let packets = fed.packets;
    let stream = fed.sending;
    let output = output.write(system, b"standard output", &symbols[..count]);
    if output.failed() {
        return Sending {
            stream,
            output,
            errors,
            came,
            replaced,
        };
    }
    let told = tell_answers(system, errors, came / 188, &answers[..packets]);
    let errors = told.errors;
    Sending {
        stream,
        output,
        errors,
        came: came + piece.len() as u64,
        replaced: replaced + told.replaced,
    }
}

// Sends eleven null packets after the last whole packet, for as many inputs that are no packets. Bytes that are held are not sent.
fn send_null_packets(system: &mut System, mode: u8, sending: Sending) -> Output
    requires { SentSome mode sending }
    ensures { SendsLast mode true sending result }
{
    let stream = sending.stream;
    let output = sending.output;
    let sender = stream.sender;
    let pending = [0u8; 188];
    let stream = SenderStream {
        sender,
        pending,
        held: 0,
    };
    let piece = [0u8; 2068];
    let mut symbols = [0u8; 17952];
    let mut answers = [0u8; 11];
    // As in `send_piece`.
    let Ok(fed) = stream.feed(&piece, &mut symbols, &mut answers) else {
        unreachable!()
    };
    let count = fed.count;
    output.write(system, b"standard output", &symbols[..count])
}

// Sends what is due at the end, and closes the output.
fn send_end(system: &mut System, mode: u8, flush: bool, sending: Sending) -> Output
    requires { SentSome mode sending }
    ensures { SendsEnd mode flush sending result }
{
    if flush {
        let output = send_null_packets(system, mode, sending);
        return output.close(system, b"standard output");
    }
    let output = sending.output;
    output.close(system, b"standard output")
}

// Ends a run whose input is over.
fn finish(system: &mut System, mode: u8, flush: bool, input: Input, sending: Sending) -> Ended
    requires { (Going mode input sending) × (input_over input ≡ true) }
    ensures { Ends mode flush result }
{
    let errors = sending.errors;
    let came = sending.came;
    let replaced = sending.replaced;
    if input.failed() {
        let output = sending.output;
        return Ended {
            status: 1,
            input,
            output,
            errors,
        };
    }
    let output = send_end(system, mode, flush, sending);
    if output.failed() {
        return Ended {
            status: 1,
            input,
            output,
            errors,
        };
    }
    let errors = tell_counts(system, errors, came / 188, replaced, came % 188);
    if errors.failed() {
        return Ended {
            status: 1,
            input,
            output,
            errors,
        };
    }
    Ended {
        status: 0,
        input,
        output,
        errors,
    }
}

// Mode and flush are what the contracts speak of, and the files go on by themselves, so that tests/programs.sh can follow each: they are no struct.
// Sends piece after piece, until the input is over or the output fails.
fn send_all(
    system: &mut System,
    mode: u8,
    flush: bool,
    input: Input,
    output: Output,
    errors: Output,
) -> Ended
    requires { (new_number mode ≡ 0)
        × (StandardInput input)
        × (FreshOutput (pos 1) output)
        × (FreshOutput (pos 2) errors) }
    ensures { Ends mode flush result }
{
    let stream = SenderStream::fresh(mode);
    let mut input = input;
    let mut sending = Sending {
        stream,
        output,
        errors,
        came: 0,
        replaced: 0,
    };
    let mut came: u64 = 0;
    let mut buffer = [0u8; 12032];
    let mut symbols = [0u8; 104448];
    let mut answers = [0u8; 64];
    // A `while`: it reads until the input ends, and counts what came.
    while came < MOST {
        let read = input.read(system, b"standard input", &mut buffer, 12032);
        let n = read.length;
        input = read.input;
        if n == 0 {
            return finish(system, mode, flush, input, sending);
        }
        let next = send_piece(
            system,
            mode,
            sending,
            &buffer[..n],
            &mut symbols,
            &mut answers,
        );
        sending = next;
        let output = next.output;
        if output.failed() {
            let errors = next.errors;
            return Ended {
                status: 1,
                input,
                output,
                errors,
            };
        }
        came = next.came;
    }
    let output = sending.output;
    let errors = sending.errors;
    let errors = errors.write_text(
        system,
        b"standard error",
        b"standard input: more than 9223372036854775807 bytes\n",
    );
    Ended {
        status: 1,
        input,
        output,
        errors,
    }
}

// What the words ask for: MODE, or --flush MODE.
fn request_of(count: usize, first: Word, second: Word) -> SendRequest
    ensures { result ≡ request_of count (word_bytes first) (word_bytes second) }
{
    if count == 1 {
        return SendRequest {
            mode: rate_words::mode_of(first).unwrap_or(6),
            flush: false,
        };
    }
    if count != 2 {
        return SendRequest {
            mode: 6,
            flush: false,
        };
    }
    if !first.is(b"--flush") {
        return SendRequest {
            mode: 6,
            flush: false,
        };
    }
    SendRequest {
        mode: rate_words::mode_of(second).unwrap_or(6),
        flush: true,
    }
}

const USAGE: [u8; 159] =
    *b"usage: dvbs_send [--flush] MODE < packets > symbols, MODE 0 to 3 or 1/2, 2/3, 3/4, 5/6 for QPSK, 5 for 16QAM 3/4; --flush sends eleven null packets at the end\n";

// Sends as the words ask, or tells that they ask for nothing that is sent.
fn work(system: &mut System, arguments: Arguments, first: Word, second: Word) -> i32
    requires { Called arguments first second }
    ensures { Exits result }
{
    let request = request_of(arguments.count(), first, second);
    let mode = request.mode;
    if !puncturing::is_sent(mode) {
        let answered = program_io::wrong(system, &USAGE);
        return answered.status;
    }
    let ended = send_all(
        system,
        mode,
        request.flush,
        Input::standard(),
        Output::standard(),
        Output::errors(),
    );
    ended.status
}

pub fn dvbs_send_main(system: &mut System) -> i32
    ensures { Exits result }
{
    let arguments = Arguments::new(system);
    let first = Word::new(system, 1);
    let second = Word::new(system, 2);
    let asked = program_io::asked_for(arguments, first);
    match asked {
        Asked::Help => {
            let answered = program_io::help(system, &USAGE);
            answered.status
        }
        Asked::Version => {
            let answered = program_io::version(system, b"dvbs_send");
            answered.status
        }
        Asked::Work => work(system, arguments, first, second),
    }
}

fn main(rt: HostRuntime) -> ExitCode {
    let mut system = System::new(rt);
    program_io::exit_code(dvbs_send_main(&mut system))
}
