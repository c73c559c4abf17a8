// recording_block FILE P > block
// Writes block P of the recording in a file, corrected, to standard output; the first block is 0. The answer and the numbers of
// bytes and bits changed go to standard error. Only the twelve blocks from block P on are read, wherever they lie in the file:
// block P of a recording is block 0 of these (`by-seeking` in recording/proofs/Blocks.antt).
// Status 0: the block was given. 1: it was not, or something failed. 2: a wrong call.
#![tactic(auto)]

ghost use Rattle.std.specs.Prelude.{◌≡◌, ◌*◌, pos};
ghost use Rattle.answer_lines.specs.Lines.{block_text};
ghost use Rattle.program_io.specs.Calls.{Answers};
ghost use Rattle.program_io.specs.Files.{OpenedInput, FreshOutput, output_file, Writes};
ghost use Rattle.program_io.specs.Words.{argument_count, word_bytes, word_is_option};
ghost use Rattle.recording_block.specs.Ends.{program_name, usage_text, block_in, request_of, BlockAnswered, Beyond, Ends, Exits};

use program_io::{Answered, Arguments, Asked, Ended, Input, Output, Parsed, System, Word};
use reed_solomon::Changed;
use std::process::ExitCode;

// What a call asks for: a block, one past every recording, or what every program answers.
#[derive(Clone, Copy)]
enum BlockRequest {
    Block(u64),
    Past,
    Other,
}

// Tells what was answered.
fn tell(system: &mut System, number: u8, changed: Changed, errors: Output) -> Output
    ensures { Writes errors (block_text number changed.bytes changed.bits) result }
{
    let mut text = [0u8; 96];
    let n = answer_lines::block_line(
        number as u64,
        changed.bytes as u64,
        changed.bits as u64,
        &mut text,
    );
    errors.write_text(system, b"standard error", &text[..n])
}

// Closes the output, and tells what was answered where nothing was lost.
fn finish(
    system: &mut System,
    p: u64,
    number: u8,
    changed: Changed,
    input: Input,
    output: Output,
    errors: Output,
) -> Ended
    requires { (BlockAnswered p number changed input output) × (output_file output ≡ pos 1) × (FreshOutput (pos 2) errors) }
    ensures { Ends p result }
{
    let output = output.close(system, b"standard output");
    if output.failed() {
        return Ended {
            status: 1,
            input,
            output,
            errors,
        };
    }
    let errors = tell(system, number, changed, errors);
    if errors.failed() {
        return Ended {
            status: 1,
            input,
            output,
            errors,
        };
    }
    let status = if number == 0 { 0 } else { 1 };
    Ended {
        status,
        input,
        output,
        errors,
    }
}

// Block p of a file that is read from there on.
fn give_block(system: &mut System, p: u64, input: Input) -> Ended
    requires { OpenedInput 1 (204 * p) input }
    ensures { Ends p result }
{
    let output = Output::standard();
    let errors = Output::errors();
    let mut buffer = [0u8; 2448];
    let mut block = [0u8; 204];
    let filled = input.fill(system, b"the recording", &mut buffer);
    let n = filled.length;
    let input = filled.input;
    if input.failed() {
        return Ended {
            status: 1,
            input,
            output,
            errors,
        };
    }
    let blocks = recording::block::whole_blocks(&buffer[..n]);
    let decoded = recording::block::decoded_block(&buffer[..n], blocks, 0, &mut block);
    let number = answer::answered(&decoded);
    let changed = decoded.unwrap_or(Changed::NONE);
    let refused = number != 0;
    if refused {
        return finish(system, p, number, changed, input, output, errors);
    }
    let output = output.write(system, b"standard output", &block);
    if output.failed() {
        return Ended {
            status: 1,
            input,
            output,
            errors,
        };
    }
    finish(system, p, number, changed, input, output, errors)
}

// Tells that no recording has such a block.
fn refuse(system: &mut System) -> Answered
    ensures { Beyond result }
{
    let output = tell(system, 16, Changed::NONE, Output::errors());
    Answered { output, status: 1 }
}

// Gives the usage or the version, or tells the usage.
fn answer(system: &mut System, asked: Asked) -> Answered
    ensures { Answers asked program_name usage_text result }
{
    program_io::answer(
        system,
        asked,
        b"recording_block",
        b"usage: recording_block FILE P > block, P the number of a block, the first being 0\n",
    )
}

// The block that a word names. A receiver takes no more than 4,294,967,295 blocks, and block p is corrected at its call p + 12.
fn block_in(word: Word) -> BlockRequest
    ensures { result ≡ block_in (word_bytes word) }
{
    let parsed = word.parse(4294967283);
    match parsed {
        Parsed::Number(p) => BlockRequest::Block(p),
        Parsed::Large => BlockRequest::Past,
        Parsed::Malformed => BlockRequest::Other,
    }
}

// What a call asks for.
fn request_for(asked: Asked, arguments: Arguments, first: Word, second: Word) -> BlockRequest
    ensures { result ≡ request_of asked (argument_count arguments) (word_is_option first) (word_bytes second) }
{
    match asked {
        Asked::Help => BlockRequest::Other,
        Asked::Version => BlockRequest::Other,
        Asked::Work => {
            if arguments.count() != 2 {
                return BlockRequest::Other;
            }
            if first.is_option() {
                return BlockRequest::Other;
            }
            block_in(second)
        }
    }
}

pub fn recording_block_main(system: &mut System) -> i32
    ensures { Exits result }
{
    let arguments = Arguments::new(system);
    let first = Word::new(system, 1);
    let second = Word::new(system, 2);
    let asked = program_io::asked_for(arguments, first);
    let request = request_for(asked, arguments, first, second);
    match request {
        BlockRequest::Block(p) => {
            let input = Input::open(system, 1, 204 * p);
            let ended = give_block(system, p, input);
            ended.status
        }
        BlockRequest::Past => {
            let answered = refuse(system);
            answered.status
        }
        BlockRequest::Other => {
            let answered = answer(system, asked);
            answered.status
        }
    }
}

fn main(rt: HostRuntime) -> ExitCode {
    let mut system = System::new(rt);
    program_io::exit_code(recording_block_main(&mut system))
}
