// pass_report < blocks
// Prints the pass report of the received bytes on standard input, in form 2.
// Status 0: all was read, and the report was written. 1: something failed. 2: a wrong call.
#![tactic(auto)]

ghost use Rattle.std.specs.Prelude.{◌≡◌, pos};
ghost use Rattle.program_io.specs.Calls.{Answers};
ghost use Rattle.program_io.specs.Files.{FreshOutput};
ghost use Rattle.program_io.specs.Words.{argument_count};
ghost use Rattle.receiver_stream.specs.History.{ReceiverCame};
ghost use Rattle.pass_report.specs.Ends.{program_name, usage_text, right_call, is_whole, Prints, Ends, Exits};

use pass::Ending;
use program_io::{Answered, Arguments, Asked, Input, Output, System, Word};
use receiver_stream::ReceiverStream;
use std::process::ExitCode;

// How it ended, with the files as it left them.
#[derive(Clone, Copy)]
pub struct PassEnded {
    pub status: i32,
    pub input: Input,
    pub output: Output,
}

// Whether all was read and taken.
fn is_whole(ending: Ending) -> bool
    ensures { result ≡ is_whole ending }
{
    match ending {
        Ending::Whole => true,
        Ending::Failed => false,
        Ending::Refused(_) => false,
    }
}

// Prints the report, and closes the output.
fn print(system: &mut System, stream: ReceiverStream, input: Input, output: Output) -> PassEnded
    requires { (ReceiverCame stream) × (FreshOutput (pos 1) output) }
    ensures { Prints stream input result }
{
    let output = pass::write_report(system, stream, output);
    let output = output.close(system, b"standard output");
    let status = if output.failed() { 1 } else { 0 };
    PassEnded {
        status,
        input,
        output,
    }
}

// The pass on standard input. No packet is written.
fn run(system: &mut System) -> PassEnded
    ensures { Ends result }
{
    let input = Input::standard();
    let marks = Input::none();
    let output = Output::standard();
    let mut bytes = pass::buffer();
    let mut own = pass::buffer();
    let mut packets = pass::buffer();
    let pass = pass::receive_all(
        system,
        input,
        marks,
        output,
        false,
        &mut bytes,
        &mut own,
        &mut packets,
    );
    let input = pass.input;
    let output = pass.output;
    let stream = pass.stream;
    let ending = pass.ending;
    if is_whole(ending) {
        return print(system, stream, input, output);
    }
    PassEnded {
        status: 1,
        input,
        output,
    }
}

// Gives the usage or the version, or tells the usage.
fn answer(system: &mut System, asked: Asked) -> Answered
    ensures { Answers asked program_name usage_text result }
{
    program_io::answer(
        system,
        asked,
        b"pass_report",
        b"usage: pass_report < blocks\n",
    )
}

// Whether the call is for the program's work, with no argument.
fn is_right(asked: Asked, arguments: Arguments) -> bool
    ensures { result ≡ right_call asked (argument_count arguments) }
{
    match asked {
        Asked::Help => false,
        Asked::Version => false,
        Asked::Work => arguments.count() == 0,
    }
}

pub fn pass_report_main(system: &mut System) -> i32
    ensures { Exits result }
{
    let arguments = Arguments::new(system);
    let first = Word::new(system, 1);
    let asked = program_io::asked_for(arguments, first);
    if is_right(asked, arguments) {
        let ended = run(system);
        return ended.status;
    }
    let answered = answer(system, asked);
    answered.status
}

fn main(rt: HostRuntime) -> ExitCode {
    let mut system = System::new(rt);
    program_io::exit_code(pass_report_main(&mut system))
}
