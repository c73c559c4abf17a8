// dvbs_read RATE < symbols > bytes
// Reads the symbols of standard input at a rate 0 to 4, one byte each, and writes the bits that were most likely sent, eight to a byte, the top bit first.
#![tactic(auto)]

ghost use Rattle.std.specs.Prelude.{false};
ghost use Rattle.reader_program.specs.Ends.{Exits};
ghost use Rattle.dvbs_read.specs.Texts.{name_text, usage_text};

use program_io::System;
use std::process::ExitCode;

pub fn dvbs_read_main(system: &mut System) -> i32
    ensures { Exits false name_text usage_text result }
{
    reader_program::exit_status(
        system,
        false,
        b"dvbs_read",
        b"usage: dvbs_read RATE < symbols > bytes, RATE 0 to 4 or 1/2, 2/3, 3/4, 5/6, 7/8\n",
    )
}

fn main(rt: HostRuntime) -> ExitCode {
    let mut system = System::new(rt);
    program_io::exit_code(dvbs_read_main(&mut system))
}
