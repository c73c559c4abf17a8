// What every program does where it is asked for its usage or its version, or called wrongly; the file that its argument may name; and how it ended.
ghost use Rattle.std.specs.Prelude.{◌≡◌};
ghost use Rattle.program_io.specs.Calls.{asked_of, version_text, EndsGiven, Gives, Refuses, Answers, NamedInput};
ghost use Rattle.program_io.specs.Words.{argument_count, word_bytes};

use crate::input::Input;
use crate::output::Output;
use crate::system::System;
use crate::words::{Arguments, Word};

// What a call asks for.
#[derive(Clone, Copy, PartialEq, Eq)]
pub enum Asked {
    Help,
    Version,
    Work,
}

// How a run ended, with its files as it left them. The programs write it out: tests/programs.sh follows each file by the field that it goes to.
#[derive(Clone, Copy)]
pub struct Ended {
    pub status: i32,
    pub input: Input,
    pub output: Output,
    pub errors: Output,
}

// The same of a run whose received bytes have marks.
#[derive(Clone, Copy)]
pub struct MarkedEnded {
    pub status: i32,
    pub input: Input,
    pub marks: Input,
    pub output: Output,
    pub errors: Output,
}

// A text that was given, and the status of the program.
#[derive(Clone, Copy)]
pub struct Answered {
    pub output: Output,
    pub status: i32,
}

// `--help` and `--version` are asked for by exactly one argument. Any other call is for the program's work.
pub fn asked_for(arguments: Arguments, first: Word) -> Asked
    ensures { result ≡ asked_of (argument_count arguments) (word_bytes first) }
{
    if arguments.count() != 1 {
        return Asked::Work;
    }
    if first.is(b"--help") {
        return Asked::Help;
    }
    if first.is(b"--version") {
        return Asked::Version;
    }
    Asked::Work
}

// Ends a text on standard output: status 0 where all of it was taken and the output was closed, and else 1.
fn given(system: &mut System, output: Output) -> Answered
    ensures { EndsGiven output result }
{
    let output = output.close(system, b"standard output");
    let status = if output.failed() { 1 } else { 0 };
    Answered { output, status }
}

// Gives the usage on standard output.
pub fn help(system: &mut System, usage: &[u8]) -> Answered
    ensures { Gives usage.now result }
{
    let output = Output::standard();
    let output = output.write(system, b"standard output", usage);
    given(system, output)
}

// Gives the program's name and version on standard output.
pub fn version(system: &mut System, name: &[u8]) -> Answered
    ensures { Gives (version_text name.now) result }
{
    let output = Output::standard();
    let output = output.write(system, b"standard output", name);
    let output = output.write(system, b"standard output", b" 1.0.0\n");
    given(system, output)
}

// Gives the usage on standard error: the call was wrong.
pub fn wrong(system: &mut System, usage: &[u8]) -> Answered
    ensures { Refuses usage.now result }
{
    let errors = Output::errors();
    let output = errors.write(system, b"standard error", usage);
    Answered { output, status: 2 }
}

// Gives what was asked for; where that is the program's work, the call was wrong.
pub fn answer(system: &mut System, asked: Asked, name: &[u8], usage: &[u8]) -> Answered
    ensures { Answers asked name.now usage.now result }
{
    match asked {
        Asked::Help => help(system, usage),
        Asked::Version => version(system, name),
        Asked::Work => wrong(system, usage),
    }
}

// The file that the first argument names, from its start, or no input where there is no argument.
pub fn named_input(system: &mut System, arguments: Arguments) -> Input
    ensures { NamedInput (argument_count arguments) result }
{
    if arguments.count() == 0 {
        return Input::none();
    }
    Input::open(system, 1, 0)
}
