// What dvbs_read and dvbs_read_soft do: they read received symbols or points from standard input, and write the bytes of the bits that were most likely sent.
// The two differ in the symbols that they read: hard decisions, one byte each, or points for soft ones.
// Inner: its functions may require what the crates above have tested. docs/ARCHITECTURE.md names the public surface.
#![tactic(auto)]

ghost use Rattle.std.specs.Prelude.{◌≡◌, true, ◌+◌, ◌≤◌, ◌<◌, pos, length};
ghost use Rattle.puncturing.specs.Mode.{qpsk_count};
ghost use Rattle.program_io.specs.Files.{StandardFiles, input_over, StandardInput, FreshOutput};
ghost use Rattle.program_io.specs.Words.{argument_count, word_bytes};
ghost use Rattle.reader_program.specs.Ends.{most_of, ReadsBehind, Buffers, Turns, Untold, Going, SymbolRefused, Ends, rate_asked, Exits};

use code_tables::QPSK_MODES;
use common::put;
use program_io::{Arguments, Asked, Ended, Filled, Input, Output, System, Word};
use reader_stream::ReaderStream;
use received_symbols::{SymbolPass, SymbolsTaken, take_bytes};

mod lines;

// The input after one read, how many bytes came, and what was taken.
#[derive(Clone, Copy)]
struct Turn {
    input: Input,
    length: usize,
    taken: SymbolsTaken,
}

// The most bytes that can be counted.
const MOST: u64 = 9223372036854775807;

// The most bytes that one read is asked for: 32,768 symbols, whose bits fill 4,096 bytes or more.
fn most_of(soft: bool) -> usize
    ensures { result ≡ most_of soft }
{
    if soft {
        return 262144;
    }
    32768
}

// Reads once, from byte 8 of the buffer on, and lays the bytes that are held right before those that came.
fn read_behind(
    system: &mut System,
    input: Input,
    held: &[u8],
    most: usize,
    buffer: &mut [u8],
) -> Filled
    requires { (length held.now < 8) × (8 + most ≤ length buffer.old) }
    ensures { ReadsBehind input held.now most buffer.new result }
{
    let filled = input.read(system, b"standard input", &mut buffer[8..], most);
    put(held, 8 - held.len(), buffer);
    filled
}

// Reads once, and takes the symbols of the bytes that were held and those that came.
fn next_turn(
    system: &mut System,
    soft: bool,
    input: Input,
    pass: SymbolPass,
    buffer: &mut [u8],
    pairs: &mut [u8],
    bits: &mut [u8],
    output: &mut [u8],
) -> Turn
    requires { Buffers soft pass buffer.old pairs.old bits.old output.old }
    ensures { Turns soft input pass output.old result output.new }
{
    let stream = pass.stream;
    let tail = pass.tail;
    let held = pass.held;
    let filled = read_behind(system, input, &tail[..held], most_of(soft), buffer);
    let length = filled.length;
    let next = filled.input;
    let from = 8 - held;
    let end = 8 + length;
    let taken = take_bytes(soft, stream, &buffer[from..end], pairs, bits, output);
    Turn {
        input: next,
        length,
        taken,
    }
}

// The end of the input: writes what is left, closes standard output, and tells how many symbols, bits and bytes are left over. Where a read failed, it does
// nothing of that.
fn finish(
    system: &mut System,
    soft: bool,
    rate: u8,
    input: Input,
    output: Output,
    errors: Output,
    pass: SymbolPass,
    came: u64,
    bits: &mut [u8],
    bytes: &mut [u8],
) -> Ended
    requires { (StandardFiles input output errors) × (Going soft rate input output pass came) × (Untold errors) × (input_over input ≡ true)
        × (1632 ≤ length bits.old) × (204 ≤ length bytes.old) }
    ensures { Ends soft rate result }
{
    if input.failed() {
        return Ended {
            status: 1,
            input,
            output,
            errors,
        };
    }
    let stream = pass.stream;
    let finished = stream.finish(bits, bytes);
    let count = finished.count;
    let output = output.write(system, b"standard output", &bytes[..count]);
    let output = output.close(system, b"standard output");
    if output.failed() {
        return Ended {
            status: 1,
            input,
            output,
            errors,
        };
    }
    let mut text = [0u8; 96];
    let n = crate::lines::closing_lines(soft, finished.rest, finished.bits, pass.held, &mut text);
    let errors = errors.write_text(system, b"standard error", &text[..n]);
    let status = if errors.failed() { 1 } else { 0 };
    Ended {
        status,
        input,
        output,
        errors,
    }
}

// Tells the place of a byte that is no symbol. Nothing after it is read.
fn refuse(
    system: &mut System,
    soft: bool,
    rate: u8,
    input: Input,
    output: Output,
    errors: Output,
    place: u64,
) -> Ended
    requires { (StandardFiles input output errors) × (SymbolRefused soft rate input output place) × (Untold errors) }
    ensures { Ends soft rate result }
{
    let mut text = [0u8; 96];
    let n = crate::lines::refusal_line(place, &mut text);
    let errors = errors.write_text(system, b"standard error", &text[..n]);
    Ended {
        status: 1,
        input,
        output,
        errors,
    }
}

// Tells that more bytes came than can be counted.
fn stop(
    system: &mut System,
    soft: bool,
    rate: u8,
    input: Input,
    output: Output,
    errors: Output,
    pass: SymbolPass,
    came: u64,
) -> Ended
    requires { (StandardFiles input output errors) × (Going soft rate input output pass came) × (Untold errors) × (9223372036854775808 ≤ came) }
    ensures { Ends soft rate result }
{
    let errors = errors.write_text(
        system,
        b"standard error",
        b"standard input: more than 9223372036854775807 bytes\n",
    );
    Ended {
        status: 1,
        input,
        output,
        errors,
    }
}

// The files, and what was read, go on by themselves from call to call, so that tests/programs.sh can follow each file: they are no struct.
// Turn after turn, until the input ends, a read or a write fails, a byte is no symbol, or more bytes came than can be counted. What a read brought is decided
// and written before the next read.
fn read_all(
    system: &mut System,
    soft: bool,
    rate: u8,
    input: Input,
    output: Output,
    errors: Output,
) -> Ended
    requires { (rate < qpsk_count) × (StandardInput input) × (FreshOutput (pos 1) output) × (FreshOutput (pos 2) errors) }
    ensures { Ends soft rate result }
{
    let mut buffer = [0u8; 262152];
    let mut pairs = [0u8; 32768];
    let mut bits = [0u8; 1632];
    let mut bytes = [0u8; 8600];
    let mut input = input;
    let mut output = output;
    let stream = ReaderStream::new(rate);
    let tail = [0u8; 8];
    let mut pass = SymbolPass {
        stream,
        tail,
        held: 0,
    };
    let mut came: u64 = 0;
    // A `while`: it reads until the input ends.
    while came <= MOST {
        let turn = next_turn(
            system,
            soft,
            input,
            pass,
            &mut buffer,
            &mut pairs,
            &mut bits,
            &mut bytes,
        );
        let length = turn.length;
        let taken = turn.taken;
        let stopped = taken.stopped;
        let count = taken.count;
        let place = came + taken.taken as u64;
        input = turn.input;
        if length == 0 {
            return finish(
                system, soft, rate, input, output, errors, pass, came, &mut bits, &mut bytes,
            );
        }
        output = output.write(system, b"standard output", &bytes[..count]);
        if output.failed() {
            return Ended {
                status: 1,
                input,
                output,
                errors,
            };
        }
        if stopped {
            return refuse(system, soft, rate, input, output, errors, place);
        }
        pass = taken.pass;
        came += length as u64;
    }
    stop(system, soft, rate, input, output, errors, pass, came)
}

// Reads standard input at a rate.
fn run(system: &mut System, soft: bool, rate: u8) -> Ended
    requires { rate < qpsk_count }
    ensures { Ends soft rate result }
{
    let input = Input::standard();
    let output = Output::standard();
    let errors = Output::errors();
    read_all(system, soft, rate, input, output, errors)
}

// The rate that the only argument names, or 6, which is none: the definition in specs/Ends.antt counts with it.
fn rate_asked(arguments: Arguments, word: Word) -> u8
    ensures { result ≡ rate_asked (argument_count arguments) (word_bytes word) }
{
    if arguments.count() != 1 {
        return 6;
    }
    rate_words::mode_of(word).unwrap_or(6)
}

// What a program of this name and usage does, and its status: RATE is read, `--help` and `--version` are told, and any other call is wrong.
pub fn exit_status(system: &mut System, soft: bool, name: &[u8], usage: &[u8]) -> i32
    ensures { Exits soft name.now usage.now result }
{
    let arguments = Arguments::new(system);
    let word = Word::new(system, 1);
    let asked = program_io::asked_for(arguments, word);
    match asked {
        Asked::Help => {
            let answered = program_io::help(system, usage);
            answered.status
        }
        Asked::Version => {
            let answered = program_io::version(system, name);
            answered.status
        }
        Asked::Work => {
            let rate = rate_asked(arguments, word);
            if rate as usize >= QPSK_MODES {
                let answered = program_io::wrong(system, usage);
                return answered.status;
            }
            let ended = run(system, soft, rate);
            ended.status
        }
    }
}
