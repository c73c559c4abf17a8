// report_form FORM < report > report
// Writes the pass report of standard input in form 1 or 2 to standard output. Where it is refused, the number of the answer goes to standard error, and
// nothing to standard output.
// Status 0: the report was written; 1: it was refused, or something failed; 2: a wrong call.
#![tactic(auto)]

ghost use Rattle.std.specs.Prelude.{◌≡◌, [], pos};
ghost use Rattle.report_lines.specs.Line.{line_text};
ghost use Rattle.program_io.specs.Words.{word_bytes};
ghost use Rattle.program_io.specs.Files.{StandardInput, FreshOutput, Writes};
ghost use Rattle.report_form.specs.Ends.{Ends, form_of, Called, Exits};

use program_io::{Arguments, Asked, Ended, Input, Output, System, Word};
use std::process::ExitCode;

// Tells the number of a refusal.
fn tell_number(system: &mut System, errors: Output, number: u8) -> Output
    ensures { Writes errors (line_text [] number) result }
{
    let mut text = [0u8; 32];
    let n = report_lines::put_line(b"", number as u64, 0, &mut text);
    errors.write_text(system, b"standard error", &text[..n])
}

// Moves the report of the input to a form. The buffer is longer than any report: a text that fills it is none, whatever follows.
fn move_input(system: &mut System, form: u64, input: Input, output: Output, errors: Output) -> Ended
    requires { (StandardInput input) × (FreshOutput (pos 1) output) × (FreshOutput (pos 2) errors) }
    ensures { Ends form result }
{
    let mut buffer = [0u8; 512];
    let mut text = [0u8; 320];
    let filled = input.fill(system, b"standard input", &mut buffer);
    let n = filled.length;
    let input = filled.input;
    if input.failed() {
        return Ended {
            status: 1,
            input,
            output,
            errors,
        };
    }
    let size = match report::move_report(&buffer[..n], form, &mut text) {
        Ok(size) => size,
        Err(refusal) => {
            return Ended {
                status: 1,
                input,
                output,
                errors: tell_number(system, errors, refusal.number()),
            };
        }
    };
    let output = output.write_text(system, b"report", &text[..size]);
    let output = output.close(system, b"standard output");
    if output.failed() {
        return Ended {
            status: 1,
            input,
            output,
            errors,
        };
    }
    Ended {
        status: 0,
        input,
        output,
        errors,
    }
}

// The form that the words ask for, or 0, which is none: the definition in specs/Ends.antt counts with it.
fn form_of(count: usize, first: Word) -> u64
    ensures { result ≡ form_of count (word_bytes first) }
{
    if count != 1 {
        return 0;
    }
    if first.is(b"1") {
        return 1;
    }
    if first.is(b"2") {
        return 2;
    }
    0
}

const USAGE: [u8; 55] = *b"usage: report_form FORM < report > report, FORM 1 or 2\n";

// Moves the report to the form that the words ask for, or tells that they ask for none.
fn work(system: &mut System, arguments: Arguments, first: Word) -> i32
    requires { Called arguments first }
    ensures { Exits result }
{
    let form = form_of(arguments.count(), first);
    if form == 0 {
        let answered = program_io::wrong(system, &USAGE);
        return answered.status;
    }
    let ended = move_input(
        system,
        form,
        Input::standard(),
        Output::standard(),
        Output::errors(),
    );
    ended.status
}

pub fn report_form_main(system: &mut System) -> i32
    ensures { Exits result }
{
    let arguments = Arguments::new(system);
    let first = Word::new(system, 1);
    let asked = program_io::asked_for(arguments, first);
    match asked {
        Asked::Help => {
            let answered = program_io::help(system, &USAGE);
            answered.status
        }
        Asked::Version => {
            let answered = program_io::version(system, b"report_form");
            answered.status
        }
        Asked::Work => work(system, arguments, first),
    }
}

fn main(rt: HostRuntime) -> ExitCode {
    let mut system = System::new(rt);
    program_io::exit_code(report_form_main(&mut system))
}
