// dvbs_receive [MARKS] < blocks > packets
// Writes the packets of the received bytes on standard input to standard output, and their pass report to standard error.
// MARKS is a file with a byte for each received byte, in their order: 1 for a doubtful one, 0 for any other. Bytes past its end are not marked.
// Status 0: all was read, written and told. 1: something failed, or a mark was above 1. 2: a wrong call.
#![tactic(auto)]

ghost use Rattle.std.specs.Prelude.{◌≡◌, false, pos};
ghost use Rattle.answer_lines.specs.Lines.{refusal_text};
ghost use Rattle.program_io.specs.Checksum.{no_bytes};
ghost use Rattle.program_io.specs.Calls.{Answers};
ghost use Rattle.program_io.specs.Files.{input_trace, output_failed, FreshOutput, Writes};
ghost use Rattle.program_io.specs.Words.{argument_count, word_is_option};
ghost use Rattle.receiver_stream.specs.History.{ReceiverCame};
ghost use Rattle.dvbs_receive.specs.Ends.{program_name, usage_text, right_call, Tells, Ends, Exits};

use pass::Ending;
use program_io::{Answered, Arguments, Asked, Input, MarkedEnded, Output, System, Word};
use receiver_stream::ReceiverStream;
use std::process::ExitCode;

// The end of what was written, and what was told of it.
#[derive(Clone, Copy)]
struct PassTold {
    status: i32,
    output: Output,
    errors: Output,
}

// Tells that there was a mark above 1, and in which block.
fn tell_mark(system: &mut System, block: u64, errors: Output) -> Output
    ensures { Writes errors (refusal_text block 20) result }
{
    let mut text = [0u8; 96];
    let n = answer_lines::refusal_line(block, 20, &mut text);
    errors.write_text(system, b"standard error", &text[..n])
}

// Closes the output, and tells the report where nothing was lost.
fn tell_report(
    system: &mut System,
    stream: ReceiverStream,
    output: Output,
    errors: Output,
) -> PassTold
    requires { (ReceiverCame stream) × (output_failed output ≡ false) × (FreshOutput (pos 2) errors) }
    ensures { Tells stream output result }
{
    let output = output.close(system, b"standard output");
    if output.failed() {
        return PassTold {
            status: 1,
            output,
            errors,
        };
    }
    let errors = pass::write_report(system, stream, errors);
    let status = if errors.failed() { 1 } else { 0 };
    PassTold {
        status,
        output,
        errors,
    }
}

// The pass on standard input, with these marks.
fn run(system: &mut System, marks: Input) -> MarkedEnded
    requires { input_trace marks ≡ no_bytes }
    ensures { Ends marks result }
{
    let input = Input::standard();
    let output = Output::standard();
    let errors = Output::errors();
    if marks.failed() {
        return MarkedEnded {
            status: 1,
            input,
            marks,
            output,
            errors,
        };
    }
    let mut bytes = pass::buffer();
    let mut own = pass::buffer();
    let mut packets = pass::buffer();
    let pass = pass::receive_all(
        system,
        input,
        marks,
        output,
        true,
        &mut bytes,
        &mut own,
        &mut packets,
    );
    let input = pass.input;
    let marks = pass.marks;
    let output = pass.output;
    let stream = pass.stream;
    let ending = pass.ending;
    match ending {
        Ending::Whole => {
            let told = tell_report(system, stream, output, errors);
            let output = told.output;
            let errors = told.errors;
            MarkedEnded {
                status: told.status,
                input,
                marks,
                output,
                errors,
            }
        }
        Ending::Failed => MarkedEnded {
            status: 1,
            input,
            marks,
            output,
            errors,
        },
        Ending::Refused(block) => {
            let errors = tell_mark(system, block, errors);
            MarkedEnded {
                status: 1,
                input,
                marks,
                output,
                errors,
            }
        }
    }
}

// Gives the usage or the version, or tells the usage.
fn answer(system: &mut System, asked: Asked) -> Answered
    ensures { Answers asked program_name usage_text result }
{
    program_io::answer(
        system,
        asked,
        b"dvbs_receive",
        b"usage: dvbs_receive [MARKS] < blocks > packets\n",
    )
}

// Whether the call is for the program's work, with no argument, or one that may name a file.
fn is_right(asked: Asked, arguments: Arguments, first: Word) -> bool
    ensures { result ≡ right_call asked (argument_count arguments) (word_is_option first) }
{
    match asked {
        Asked::Help => false,
        Asked::Version => false,
        Asked::Work => {
            if 1 < arguments.count() {
                return false;
            }
            !first.is_option()
        }
    }
}

pub fn dvbs_receive_main(system: &mut System) -> i32
    ensures { Exits result }
{
    let arguments = Arguments::new(system);
    let first = Word::new(system, 1);
    let asked = program_io::asked_for(arguments, first);
    if is_right(asked, arguments, first) {
        let marks = program_io::named_input(system, arguments);
        let ended = run(system, marks);
        return ended.status;
    }
    let answered = answer(system, asked);
    answered.status
}

fn main(rt: HostRuntime) -> ExitCode {
    let mut system = System::new(rt);
    program_io::exit_code(dvbs_receive_main(&mut system))
}
