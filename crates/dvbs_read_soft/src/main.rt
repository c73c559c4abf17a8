// dvbs_read_soft RATE < points > bytes
// Reads the received points of standard input at a rate 0 to 4, and writes the bits that were most likely sent, eight to a byte, the top bit first.
// A point is two f32, I and then Q, the lowest byte first: the complex numbers of GNU Radio's files. One whose numbers are both NaN is a lost symbol.
#![tactic(auto)]

ghost use Rattle.std.specs.Prelude.{true};
ghost use Rattle.reader_program.specs.Ends.{Exits};
ghost use Rattle.dvbs_read_soft.specs.Texts.{name_text, usage_text};

use program_io::System;
use std::process::ExitCode;

pub fn dvbs_read_soft_main(system: &mut System) -> i32
    ensures { Exits true name_text usage_text result }
{
    reader_program::exit_status(
        system,
        true,
        b"dvbs_read_soft",
        b"usage: dvbs_read_soft RATE < points > bytes, RATE 0 to 4 or 1/2, 2/3, 3/4, 5/6, 7/8\n",
    )
}

fn main(rt: HostRuntime) -> ExitCode {
    let mut system = System::new(rt);
    program_io::exit_code(dvbs_read_soft_main(&mut system))
}
