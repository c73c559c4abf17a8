// dvbs_losses [MARKS] < blocks
// Writes what to ask for again of the received bytes on standard input: a line for each block of which no packet was given, and for each packet
// whose place in its group is in doubt, as soon as that is decided; and last the number of bytes after the last whole block, without which the list
// is cut off.
// MARKS is a file with a byte for each received byte, in their order: 1 for a doubtful one, 0 for any other. Bytes past its end are not marked.
// Status 0: all was read and written. 1: something failed, or a mark was above 1. 2: a wrong call.
#![tactic(auto)]

ghost use Rattle.std.specs.Prelude.{◌≡◌, ◌≤◌};
ghost use Rattle.program_io.specs.Checksum.{no_bytes};
ghost use Rattle.program_io.specs.Files.{input_trace, input_origin, output_file, output_trace};
ghost use Rattle.program_io.specs.Words.{argument_count, word_is_option};
ghost use Rattle.losses.specs.Feed.{capacity_of};
ghost use Rattle.dvbs_losses.specs.Ends.{right_call, Turns, AllRead, Status, Ends, Exits};

use answer_lines::put_list;
use common::joined;
use losses::LossStream;
use program_io::{Arguments, Asked, Input, MarkedEnded, Output, System, Word};
use reception_counts::Counts;
use std::process::ExitCode;

// What a piece came to. The flag is beside the files and not in a Result: the files are handed on where it failed too.
#[derive(Clone, Copy)]
struct Turned {
    failed: bool,
    marks: Input,
    output: Output,
    errors: Output,
    stream: LossStream,
}

// Takes a block with its marks, and writes the lines that are decided then, or tells a mark above 1.
fn turn(
    system: &mut System,
    marks: Input,
    output: Output,
    errors: Output,
    stream: LossStream,
    block: [u8; 204],
) -> Turned
    requires { 204 ≤ capacity_of stream }
    ensures { Turns marks output errors stream block result }
{
    let mut own = [0u8; 204];
    let mut lines = [0u64; 8];
    let mut text = [0u8; 512];
    let filled = marks.fill(system, b"marks", &mut own);
    let length = filled.length;
    let next = filled.input;
    if next.failed() {
        return Turned {
            failed: true,
            marks: next,
            output,
            errors,
            stream,
        };
    }
    let marked = joined::<204>(&[0u8; 0], &own[..length]);
    let Ok(fed) = stream.feed(&block, &marked, &mut lines) else {
        let errors = errors.write_text(system, b"standard error", b"marks: a mark above 1\n");
        return Turned {
            failed: true,
            marks: next,
            output,
            errors,
            stream,
        };
    };
    let end = put_list(&lines, fed.count, 0, &mut text);
    let written = output.write(system, b"standard output", &text[..end]);
    let failed = written.failed();
    Turned {
        failed,
        marks: next,
        output: written,
        errors,
        stream: fed.stream,
    }
}

// Writes the end of the list, where no read failed, and closes the output. So many bytes came after the last whole block.
fn finish(
    system: &mut System,
    input: Input,
    marks: Input,
    output: Output,
    errors: Output,
    stream: LossStream,
    rest: usize,
) -> MarkedEnded
    requires { (AllRead input marks output stream rest) × (output_trace errors ≡ no_bytes) }
    ensures { (Status result)
        × (input_origin result.input ≡ input_origin input)
        × (input_origin result.marks ≡ input_origin marks)
        × (output_file result.output ≡ output_file output)
        × (output_file result.errors ≡ output_file errors) }
{
    if input.failed() {
        return MarkedEnded {
            status: 1,
            input,
            marks,
            output,
            errors,
        };
    }
    if marks.failed() {
        return MarkedEnded {
            status: 1,
            input,
            marks,
            output,
            errors,
        };
    }
    let mut lines = [0u64; 8];
    let mut text = [0u8; 640];
    // There is room for a line for each packet that waits.
    let count = stream.close(&mut lines).unwrap_or(0);
    let end = put_list(&lines, count, 0, &mut text);
    let size = report_lines::put_line(b"rest=", rest as u64, end, &mut text);
    let written = output.write_text(system, b"standard output", &text[..size]);
    let output = written.close(system, b"standard output");
    if output.failed() {
        return MarkedEnded {
            status: 1,
            input,
            marks,
            output,
            errors,
        };
    }
    MarkedEnded {
        status: 0,
        input,
        marks,
        output,
        errors,
    }
}

// The list of what is on standard input, with these marks, a block at a time, so that a live feed's lines come out when their blocks are whole.
fn run(system: &mut System, marks: Input) -> MarkedEnded
    requires { input_trace marks ≡ no_bytes }
    ensures { Ends marks result }
{
    let mut input = Input::standard();
    let mut own = marks;
    let mut output = Output::standard();
    let mut errors = Output::errors();
    let mut stream = LossStream::new();
    for blocks in 0..Counts::MOST {
        let mut block = [0u8; 204];
        let filled = input.fill(system, b"standard input", &mut block);
        let size = filled.length;
        input = filled.input;
        if size < 204 {
            return finish(system, input, own, output, errors, stream, size);
        }
        let turned = turn(system, own, output, errors, stream, block);
        let failed = turned.failed;
        own = turned.marks;
        output = turned.output;
        errors = turned.errors;
        stream = turned.stream;
        if failed {
            return MarkedEnded {
                status: 1,
                input,
                marks: own,
                output,
                errors,
            };
        }
    }
    finish(system, input, own, output, errors, stream, 0)
}

// Whether there is no argument, or one that may name a file.
fn is_right(arguments: Arguments, first: Word) -> bool
    ensures { result ≡ right_call (argument_count arguments) (word_is_option first) }
{
    if 1 < arguments.count() {
        return false;
    }
    !first.is_option()
}

pub fn dvbs_losses_main(system: &mut System) -> i32
    ensures { Exits result }
{
    let arguments = Arguments::new(system);
    let first = Word::new(system, 1);
    let asked = program_io::asked_for(arguments, first);
    match asked {
        Asked::Help => {
            let answered = program_io::help(system, b"usage: dvbs_losses [MARKS] < blocks\n");
            answered.status
        }
        Asked::Version => {
            let answered = program_io::version(system, b"dvbs_losses");
            answered.status
        }
        Asked::Work => {
            if is_right(arguments, first) {
                let marks = program_io::named_input(system, arguments);
                let ended = run(system, marks);
                return ended.status;
            }
            let answered = program_io::wrong(system, b"usage: dvbs_losses [MARKS] < blocks\n");
            answered.status
        }
    }
}

fn main(rt: HostRuntime) -> ExitCode {
    let mut system = System::new(rt);
    program_io::exit_code(dvbs_losses_main(&mut system))
}
