// The runs of a reader as bytes: the cells that hold symbols, read of bytes, cleared where they hold nothing, and whether all is in range.
// Inner: its functions may require what the crates above have tested. docs/ARCHITECTURE.md names the public surface.
#![tactic(auto)]

ghost use Rattle.std.specs.Prelude.{◌≡◌, ◌+◌, ◌*◌, ◌≤◌, length, get_or, take, drop};
ghost use Rattle.common.specs.Lists.{padded};
ghost use Rattle.reader_stream.specs.Runs.{held_of};
ghost use Rattle.reader_state.specs.Runs.{runs_in_range};

use code_tables::QPSK_MODES;
use common::{array_at, joined, largest_of};
use reader_stream::symbol_runs::{SymbolRuns, full_symbols};

// A byte for each cell.
pub fn pairs_at(bytes: &[u8], at: usize) -> [u8; 1632]
    requires { at + 1632 ≤ length bytes.now }
    ensures { result ≡ take 1632 (drop at bytes.now) }
{
    array_at(bytes, at)
}

// The number in two bytes, the low one first.
pub fn number_at(bytes: &[u8], at: usize) -> usize
    requires { at + 2 ≤ length bytes.now }
    ensures { result ≡ get_or bytes.now at 0 + 256 * get_or bytes.now (at + 1) 0 }
{
    u16::from_le_bytes([bytes[at], bytes[at + 1]]) as usize
}

// Whether the numbers of the runs are in range, and cells that hold nothing 0.
pub fn are_in_range(runs: SymbolRuns) -> bool
    requires { length runs.held ≡ 1632 }
    ensures { result ≡ runs_in_range runs }
{
    if runs.rate as usize >= QPSK_MODES {
        return false;
    }
    runs.memory < 64
        && runs.count < full_symbols(runs.rate)
        && largest_of(&runs.held[runs.count..]) == 0
        && largest_of(&runs.held) < 81
}

// The cells of the runs, with 0 where nothing is held.
pub fn cleared_pairs(runs: SymbolRuns) -> [u8; 1632]
    requires { (length runs.held ≡ 1632) × (runs.count ≤ 1632) }
    ensures { result ≡ padded 1632 (held_of runs) }
{
    joined(&runs.held[..runs.count], &[])
}
