// season < reports
// Prints the totals of a season of pass reports, one after another on standard input, and the worst of them; or the number of the first refusal.
// Status 0: the totals were printed; 1: the season was refused, or something failed; 2: a wrong call.
#![tactic(auto)]

ghost use Rattle.std.specs.Prelude.{pos};
ghost use Rattle.program_io.specs.Files.{StandardInput, FreshOutput};
ghost use Rattle.season.specs.Ends.{Comes, Ends, Called, Exits};

use program_io::{Arguments, Asked, Input, Output, System, Word};
use season_totals::Season;
use std::process::ExitCode;

// What was read, and the season that it came to.
#[derive(Clone, Copy)]
pub struct SeasonCame {
    pub input: Input,
    pub season: Season,
}

// How a run ended, with the files as it left them.
#[derive(Clone, Copy)]
pub struct SeasonEnded {
    pub status: i32,
    pub input: Input,
    pub output: Output,
}

// Reads until the input is over, or the season is refused: what follows a refusal does not matter. The loop ends because a season that is not refused
// has no more than 4,096 reports.
fn read_season(system: &mut System, input: Input) -> SeasonCame
    requires { StandardInput input }
    ensures { Comes result }
{
    let mut input = input;
    let mut season = Season::new();
    let mut came: u64 = 0;
    let mut buffer = [0u8; 65536];
    // A `loop`: it ends where the input does.
    loop {
        let read = input.read(system, b"standard input", &mut buffer, 65536);
        let n = read.length;
        input = read.input;
        if n == 0 {
            return SeasonCame { input, season };
        }
        season = season.feed(&buffer[..n]);
        came += n as u64;
        if season.answer.is_err() {
            return SeasonCame { input, season };
        }
    }
}

// Prints what the season of the input comes to.
fn write_season(system: &mut System, input: Input, season: Season, output: Output) -> SeasonEnded
    requires { (Comes (record { input = input; season = season })) × (FreshOutput (pos 1) output) }
    ensures { Ends result }
{
    if input.failed() {
        return SeasonEnded {
            status: 1,
            input,
            output,
        };
    }
    let mut text = [0u8; 160];
    let read = season.finish();
    let n = season_totals::compose(read, &mut text);
    let output = output.write_text(system, b"season", &text[..n]);
    let output = output.close(system, b"standard output");
    if output.failed() {
        return SeasonEnded {
            status: 1,
            input,
            output,
        };
    }
    if read.is_err() {
        return SeasonEnded {
            status: 1,
            input,
            output,
        };
    }
    SeasonEnded {
        status: 0,
        input,
        output,
    }
}

const USAGE: [u8; 24] = *b"usage: season < reports\n";

// Prints the season of standard input, or tells that the call has words.
fn work(system: &mut System, arguments: Arguments, first: Word) -> i32
    requires { Called arguments first }
    ensures { Exits result }
{
    if arguments.count() != 0 {
        let answered = program_io::wrong(system, &USAGE);
        return answered.status;
    }
    let came = read_season(system, Input::standard());
    let input = came.input;
    let season = came.season;
    let ended = write_season(system, input, season, Output::standard());
    ended.status
}

pub fn season_main(system: &mut System) -> i32
    ensures { Exits result }
{
    let arguments = Arguments::new(system);
    let first = Word::new(system, 1);
    let asked = program_io::asked_for(arguments, first);
    match asked {
        Asked::Help => {
            let answered = program_io::help(system, &USAGE);
            answered.status
        }
        Asked::Version => {
            let answered = program_io::version(system, b"season");
            answered.status
        }
        Asked::Work => work(system, arguments, first),
    }
}

fn main(rt: HostRuntime) -> ExitCode {
    let mut system = System::new(rt);
    program_io::exit_code(season_main(&mut system))
}
