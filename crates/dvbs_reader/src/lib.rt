// Functions for C and Rust that read symbols, on numbers and slices. A slice is a pointer and a length; slices of one call must not overlap.
// Their declarations for C are in include/dvbs.h.
#![tactic(auto)]

ghost use Rattle.std.specs.Prelude.{◌≡◌, ◌++◌, ◌≤◌, length, drop};
ghost use Rattle.answer.specs.Number.{answered, given_or};
ghost use Rattle.dvbs_reader.specs.ReadRun.{result_bytes, ReadRunExported, SoftRunExported};

use answer::Refusal;
use common::{byte_at, put};
use reader::Read;

// Writes the number of the answer, the memory after a run, and the cost in four bytes.
fn put_result(number: u8, memory: u8, cost: u64, res: &mut [u8])
    requires { 6 ≤ length res.old }
    ensures { res.new ≡ result_bytes number memory cost ++ drop 6 res.old }
{
    let bytes = [
        number,
        memory,
        byte_at(cost, 0),
        byte_at(cost, 1),
        byte_at(cost, 2),
        byte_at(cost, 3),
    ];
    put(&bytes, 0, res);
}

// Writes what reading a run came to: the number of bits. A run that is refused leaves the memory.
fn put_read(read: Result<Read, Refusal>, memory: u8, res: &mut [u8]) -> u64
    requires { 6 ≤ length res.old }
    ensures counted { result ≡ given_or 0 (λ r. r.count) read }
    ensures written { res.new ≡ result_bytes (answered read) (given_or memory (λ r. r.memory) read) (given_or 0 (λ r. r.cost) read) ++ drop 6 res.old }
{
    match read {
        Ok(run) => {
            put_result(0, run.memory, run.cost, res);
            run.count as u64
        }
        Err(refusal) => {
            put_result(refusal.number(), memory, 0, res);
            0
        }
    }
}

// Reads a run of symbols: the number of bits written. The first six bytes of result have the number of the answer, the memory after the run and
// the number of I and Q bits that differ.
#[unsafe(no_mangle)]
pub extern "C" fn dvbs_read_run(
    rate: u8,
    memory: u8,
    symbols: &[u8],
    output: &mut [u8],
    res: &mut [u8],
) -> u64
    ensures { ReadRunExported rate memory symbols.now output.old output.new res.old res.new result }
{
    if res.len() < 6 {
        return 0;
    }
    put_read(reader::read_run(rate, memory, symbols, output), memory, res)
}

// Reads a run by soft decisions, from the numbers I and Q of each symbol and 1 where it was lost or 0: the number of bits written. The first six
// bytes of result have the number of the answer, the memory after the run and the cost of its bits.
#[unsafe(no_mangle)]
pub extern "C" fn dvbs_read_soft_run(
    rate: u8,
    memory: u8,
    i: &[f32],
    q: &[f32],
    lost: &[u8],
    output: &mut [u8],
    res: &mut [u8],
) -> u64
    ensures { SoftRunExported rate memory i.now q.now lost.now output.old output.new res.old res.new result }
{
    if res.len() < 6 {
        return 0;
    }
    put_read(
        reader::read_soft_run(rate, memory, i, q, lost, output),
        memory,
        res,
    )
}
