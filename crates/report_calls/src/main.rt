// report_calls < cases > answers
// Calls the reader, the mover and the writer of pass reports with one case after another, for the comparison with reference/. A case is a byte
// that says what is done, the length of the output and that of the bytes which follow, each in two bytes, the lower first, and these bytes:
//   0      a text: it is read, and the report that it is is written again
//   1, 2   a text: its report is moved to this form
//   3      a report as numbers: what its bits are (0 absent, 1 a dash, 2 a number), then taken to changed, bits and rest, each in eight
//          bytes, the lower first: it is written
// The answer is its number, how many bytes were written, in two bytes, and the first of the output: so many as were written.
//   4      four numbers of eight bytes: the answer is 1 where the product of the first two is less than that of the others, else 0, then 16 in
//          two bytes, and the first product in sixteen
//   5      a text: its season, as it is printed, after the number of its answer and its length
#![tactic(auto)]

ghost use Rattle.std.specs.Prelude.{◌+◌, ◌≤◌, length};

use answer::Refusal;
use report::{Bits, Report};
use std::io::{Read, Write};

// Writes bytes to standard output. What fails is not told.
fn write_all(rt: HostRuntime, bytes: &[u8]) {
    let _ = rt.stdout().write_all(bytes);
}

// A number in eight bytes, the lower first.
fn number_at(bytes: &[u8], at: usize) -> u64
    requires { at + 8 ≤ length bytes.now }
{
    u64::from_le_bytes(common::array_at(bytes, at))
}

fn bits_of(kind: u8, value: u64) -> Bits {
    match kind {
        0 => Bits::Absent,
        1 => Bits::Dash,
        _ => Bits::Number(value),
    }
}

fn write_numbers(bytes: &[u8], output: &mut [u8]) -> Result<usize, Refusal> {
    if bytes.len() != 73 {
        return Err(Refusal::NotReport);
    }
    let report = Report {
        taken: number_at(bytes, 1),
        filling: number_at(bytes, 9),
        delivered: number_at(bytes, 17),
        lost: number_at(bytes, 25),
        waiting: number_at(bytes, 33),
        outofstep: number_at(bytes, 41),
        changed: number_at(bytes, 49),
        bits: bits_of(bytes[0], number_at(bytes, 57)),
        rest: number_at(bytes, 65),
    };
    report::write_report(report, output)
}

fn write_again(text: &[u8], output: &mut [u8]) -> Result<usize, Refusal> {
    report::write_report(report::read_report(text)?, output)
}

fn call(kind: u8, bytes: &[u8], output: &mut [u8]) -> Result<usize, Refusal> {
    match kind {
        0 => write_again(bytes, output),
        3 => write_numbers(bytes, output),
        form => report::move_report(bytes, u64::from(form), output),
    }
}

// Writes the number of an answer, and how long what follows is, in two bytes.
fn write_head(rt: HostRuntime, number: u8, length: usize) {
    write_all(
        rt,
        &[number, (length % 256) as u8, (length / 256 % 256) as u8],
    );
}

fn write_answer(rt: HostRuntime, written: Result<usize, Refusal>, output: &[u8]) {
    match written {
        Ok(n) => {
            write_head(rt, 0, n);
            if n <= output.len() {
                write_all(rt, &output[..n]);
            }
        }
        Err(refusal) => write_head(rt, refusal.number(), 0),
    }
}

fn write_products(rt: HostRuntime, bytes: &[u8]) {
    if bytes.len() != 32 {
        return;
    }
    let first = season_totals::product(number_at(bytes, 0), number_at(bytes, 8));
    let second = season_totals::product(number_at(bytes, 16), number_at(bytes, 24));
    write_all(rt, &[season_totals::below(first, second) as u8, 16, 0]);
    write_all(rt, &first[0].to_le_bytes());
    write_all(rt, &first[1].to_le_bytes());
}

fn write_season(rt: HostRuntime, bytes: &[u8]) {
    let mut text = [0u8; 160];
    let read = season_totals::read_season(bytes);
    let n = season_totals::compose(read, &mut text);
    write_head(rt, answer::answered(&read), n);
    write_all(rt, &text[..n]);
}

// Reads so many bytes and answers the case with them: whether they were there.
fn answer_case(rt: HostRuntime, kind: u8, size: usize, bytes: &mut [u8], output: &mut [u8]) -> bool
    requires { size ≤ length bytes.old }
{
    if rt.stdin().read_exact(&mut bytes[..size]).is_err() {
        return false;
    }
    let bytes = &bytes[..size];
    match kind {
        4 => write_products(rt, bytes),
        5 => write_season(rt, bytes),
        _ => write_answer(rt, call(kind, bytes, output), output),
    }
    true
}

// The same of the next case, with what stands before its bytes.
fn next_case(rt: HostRuntime) -> bool {
    let mut head = [0u8; 5];
    let mut bytes = [0u8; 4096];
    let mut output = [0u8; 4096];
    if rt.stdin().read_exact(&mut head).is_err() {
        return false;
    }
    let length = usize::from(u16::from_le_bytes([head[1], head[2]]));
    let size = usize::from(u16::from_le_bytes([head[3], head[4]]));
    if length > 4096 || size > 4096 {
        return false;
    }
    answer_case(rt, head[0], size, &mut bytes, &mut output[..length])
}

// A proved loop has to end, and nothing says that an input does: the loop has so many turns that no run uses them up.
fn main(rt: HostRuntime) {
    for _ in 0..u64::MAX {
        if !next_case(rt) {
            break;
        }
    }
}
