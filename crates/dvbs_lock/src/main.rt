// dvbs_lock RATE < points > packets
// Writes the transport packets in the received points on standard input, which may begin anywhere in the stream and be turned any way; and on standard error
// where a lock was found and lost, what to ask for again, and a pass report for each lock. docs/ACQUISITION.md has the lines.
// RATE is 0 to 4, 1/2, 2/3, 3/4, 5/6 or 7/8; `any` searches all five; `bits` takes decoded bytes whose blocks begin at any bit.
// Status 0: all was read and written, and there was a lock. 1: something failed, or there was no lock. 2: a wrong call.
#![tactic(auto)]

ghost use Rattle.std.specs.Prelude.{◌≡◌, ◌+◌, ◌<◌, ◌≤◌, pos, length};
ghost use Rattle.common.specs.Lists.{All};
ghost use Rattle.lock_stream.specs.Source.{came_of};
ghost use Rattle.lock_stream.specs.Stream.{StreamReady};
ghost use Rattle.program_io.specs.Files.{StandardFiles, StandardInput, FreshOutput};
ghost use Rattle.program_io.specs.Calls.{asked_of};
ghost use Rattle.program_io.specs.Words.{argument_count, word_argument, word_bytes};
ghost use Rattle.program_io.specs.declared.calls.Asked.TheVariants.{Work};
ghost use Rattle.dvbs_lock.specs.Numbers.{rest_bytes};
ghost use Rattle.dvbs_lock.specs.Ends.{source_asked, Asks, status_of, Takes, Finishes, AllRead, TooMuch, Ends, Runs, Exits};

use lock_stream::LockStream;
use lock_stream::progress::LockProgress;
use program_io::{Arguments, Asked, Ended, Input, Output, System, Word};
use std::process::ExitCode;

mod numbers;

// What is asked for: points at a rate, or at any of the five, or bits.
#[derive(Clone, Copy)]
enum Source {
    Rate(u8),
    AnyRate,
    Bits,
}

// What numbers came to. The flag is beside the files and not in a Result: the files are handed on where it failed too.
#[derive(Clone, Copy)]
struct NumbersTaken {
    failed: bool,
    output: Output,
    errors: Output,
    stream: LockStream,
}

// What the end came to, and how many bits are behind the last block of a lock that lasts; none where a write failed.
#[derive(Clone, Copy)]
struct LocksFinished {
    left: Option<usize>,
    output: Output,
    errors: Output,
    stream: LockStream,
}

// The most points or bits that can be counted.
const MOST: u64 = 1152921504606740000;

// The status where there was no lock.
const NO_LOCK: i32 = 1;

// Takes numbers, step after step, and writes what each step gives and tells.
fn take_numbers(
    system: &mut System,
    output: Output,
    errors: Output,
    stream: LockStream,
    numbers: &[u8],
    packets: &mut [u8],
    text: &mut [u8],
) -> NumbersTaken
    requires { (StreamReady stream) × (All (λ p. p < 81) numbers.now) × (came_of stream.source + length numbers.now < 1152921504606846976)
        × (1504 ≤ length packets.old) × (2048 ≤ length text.old) }
    ensures { Takes output errors stream numbers.now result }
{
    let mut output = output;
    let mut errors = errors;
    let mut stream = stream;
    let mut at: usize = 0;
    // A `while`: it goes on by as many as a step took.
    while at < numbers.len() {
        let step = stream.step(&numbers[at..], packets, text);
        let given = step.packets;
        let told = step.text;
        stream = step.stream;
        output = output.write(system, b"standard output", &packets[..given]);
        errors = errors.write(system, b"standard error", &text[..told]);
        if output.failed() {
            return NumbersTaken {
                failed: true,
                output,
                errors,
                stream,
            };
        }
        if errors.failed() {
            return NumbersTaken {
                failed: true,
                output,
                errors,
                stream,
            };
        }
        at += step.taken;
    }
    NumbersTaken {
        failed: false,
        output,
        errors,
        stream,
    }
}

// The end of the numbers, step after step until it is over.
fn finish_stream(
    system: &mut System,
    output: Output,
    errors: Output,
    stream: LockStream,
    packets: &mut [u8],
    text: &mut [u8],
) -> LocksFinished
    requires { (StreamReady stream) × (1504 ≤ length packets.old) × (2048 ≤ length text.old) }
    ensures { Finishes output errors stream result }
{
    let mut output = output;
    let mut errors = errors;
    let mut stream = stream;
    // A `loop`: step after step, until one is the last.
    loop {
        let end = stream.end_step(packets, text);
        let given = end.packets;
        let told = end.text;
        let over = end.over;
        stream = end.stream;
        output = output.write(system, b"standard output", &packets[..given]);
        errors = errors.write(system, b"standard error", &text[..told]);
        if output.failed() {
            return LocksFinished {
                left: None,
                output,
                errors,
                stream,
            };
        }
        if errors.failed() {
            return LocksFinished {
                left: None,
                output,
                errors,
                stream,
            };
        }
        match over {
            Some(left) => {
                return LocksFinished {
                    left: Some(left),
                    output,
                    errors,
                    stream,
                };
            }
            None => {}
        }
    }
}

// The input, the outputs and the stream are values that go on by themselves from call to call, so that tests/programs.sh can follow each file: they are no
// struct. Whether it is bits, and the rate, are what the contracts of lock_stream speak of.
// The end of the input, with so many bytes behind the last whole point: writes what is left, closes standard output and tells the last lines. Where a read
// failed, it does nothing of that.
fn finish(
    system: &mut System,
    bits: bool,
    rate: u8,
    input: Input,
    output: Output,
    errors: Output,
    stream: LockStream,
    rest: u64,
    packets: &mut [u8],
    text: &mut [u8],
) -> Ended
    requires { (StandardFiles input output errors) × (AllRead bits rate input output errors stream rest) × (1504 ≤ length packets.old) × (2048 ≤ length text.old) }
    ensures { Ends bits rate result }
{
    if input.failed() {
        return Ended {
            status: 1,
            input,
            output,
            errors,
        };
    }
    let finished = finish_stream(system, output, errors, stream, packets, text);
    let output = finished.output;
    let errors = finished.errors;
    let stream = finished.stream;
    let Some(left) = finished.left else {
        return Ended {
            status: 1,
            input,
            output,
            errors,
        };
    };
    let output = output.close(system, b"standard output");
    if output.failed() {
        return Ended {
            status: 1,
            input,
            output,
            errors,
        };
    }
    let n = stream.close(left, rest, text);
    let errors = errors.write_text(system, b"standard error", &text[..n]);
    let progress = stream.progress;
    let status = if errors.failed() {
        1
    } else {
        status_of(progress)
    };
    Ended {
        status,
        input,
        output,
        errors,
    }
}

// The status where nothing failed: 1 where there was no lock.
fn status_of(progress: LockProgress) -> i32
    ensures { result ≡ status_of progress.found }
{
    let found = progress.found;
    if found {
        return 0;
    }
    NO_LOCK
}

// Tells that more points or bits came than can be counted.
fn stop(
    system: &mut System,
    bits: bool,
    rate: u8,
    input: Input,
    output: Output,
    errors: Output,
) -> Ended
    requires { (StandardFiles input output errors) × (TooMuch bits input) }
    ensures { Ends bits rate result }
{
    let errors = errors.write_text(system, b"standard error", b"standard input: too long\n");
    Ended {
        status: 1,
        input,
        output,
        errors,
    }
}

// The bytes behind the last whole point of so many.
fn rest_of(bits: bool, length: usize) -> u64
    ensures { result ≡ rest_bytes bits length }
{
    if bits {
        return 0;
    }
    (length % 8) as u64
}

// Reads and takes, until the input ends, something fails, or more came than can be counted. What was read is decided and written before the next read.
fn lock_all(
    system: &mut System,
    bits: bool,
    rate: u8,
    input: Input,
    output: Output,
    errors: Output,
) -> Ended
    requires { (rate < 6) × (StandardInput input) × (FreshOutput (pos 1) output) × (FreshOutput (pos 2) errors) }
    ensures { Ends bits rate result }
{
    let size = crate::numbers::read_size(bits);
    let mut buffer = [0u8; 104448];
    let mut numbers = [0u8; 13056];
    let mut packets = [0u8; 1504];
    let mut text = [0u8; 2048];
    let mut input = input;
    let mut output = output;
    let mut errors = errors;
    let mut stream = LockStream::new(bits, rate);
    let mut came: u64 = 0;
    // A `while`: it reads until the input ends, and counts what came.
    while came <= MOST {
        let read = crate::numbers::read_numbers(
            system,
            bits,
            input,
            &mut buffer[..size],
            &mut numbers,
        );
        let length = read.length;
        let count = read.count;
        input = read.input;
        let taken = take_numbers(
            system,
            output,
            errors,
            stream,
            &numbers[..count],
            &mut packets,
            &mut text,
        );
        let failed = taken.failed;
        output = taken.output;
        errors = taken.errors;
        stream = taken.stream;
        if failed {
            return Ended {
                status: 1,
                input,
                output,
                errors,
            };
        }
        came += count as u64;
        if length < size {
            let rest = rest_of(bits, length);
            return finish(
                system,
                bits,
                rate,
                input,
                output,
                errors,
                stream,
                rest,
                &mut packets,
                &mut text,
            );
        }
    }
    stop(system, bits, rate, input, output, errors)
}

// Takes standard input. It hands on the status alone: what is kept of the files to prove what they hold is then no work for the program.
fn run(system: &mut System, bits: bool, rate: u8) -> i32
    requires { rate < 6 }
    ensures { Runs bits rate result }
{
    let input = Input::standard();
    let output = Output::standard();
    let errors = Output::errors();
    let ended = lock_all(system, bits, rate, input, output, errors);
    ended.status
}

// What the only argument asks for.
fn source_asked(arguments: Arguments, word: Word) -> Option<Source>
    ensures { Asks result (source_asked (argument_count arguments) (word_bytes word)) }
{
    if arguments.count() != 1 {
        return None;
    }
    if word.is(b"any") {
        return Some(Source::AnyRate);
    }
    if word.is(b"bits") {
        return Some(Source::Bits);
    }
    let mode = rate_words::mode_of(word)?;
    if mode < 5 {
        return Some(Source::Rate(mode));
    }
    None
}

// Takes what is asked for, or tells that nothing is.
fn work(system: &mut System, arguments: Arguments, word: Word) -> i32
    requires { (word_argument word ≡ 1) × (asked_of (argument_count arguments) (word_bytes word) ≡ Work) }
    ensures { Exits result }
{
    match source_asked(arguments, word) {
        Some(Source::Rate(rate)) => run(system, false, rate),
        Some(Source::AnyRate) => run(system, false, 5),
        Some(Source::Bits) => run(system, true, 5),
        None => {
            let answered = program_io::wrong(system, b"usage: dvbs_lock RATE < points > packets\n");
            answered.status
        }
    }
}

pub fn dvbs_lock_main(system: &mut System) -> i32
    ensures { Exits result }
{
    let arguments = Arguments::new(system);
    let word = Word::new(system, 1);
    let asked = program_io::asked_for(arguments, word);
    match asked {
        Asked::Help => {
            let answered = program_io::help(system, b"usage: dvbs_lock RATE < points > packets\n");
            answered.status
        }
        Asked::Version => {
            let answered = program_io::version(system, b"dvbs_lock");
            answered.status
        }
        Asked::Work => work(system, arguments, word),
    }
}

fn main(rt: HostRuntime) -> ExitCode {
    let mut system = System::new(rt);
    program_io::exit_code(dvbs_lock_main(&mut system))
}
