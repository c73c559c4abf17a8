// The search for the right hypothesis about received symbols that begin anywhere and came turned: the rate, the start of a pattern, and the turn as far as an
// inner decoder can tell it.
// Inner: its functions may require what the crates above have tested. docs/ARCHITECTURE.md names the public surface.
#![tactic(auto)]

ghost use Rattle.std.specs.Prelude.{◌≡◌, List, ◌++◌, ◌*◌, ◌<◌, ◌≤◌, length, get_or, take};
ghost use Rattle.answer.specs.Number.{answered, given_or};
ghost use Rattle.common.specs.Lists.{All, total};
ghost use Rattle.node_search.specs.Hypotheses.{turns_told, hypothesis_at, hypothesis_count, hypotheses_of, hypotheses_below};
ghost use Rattle.node_search.specs.Search.{adding, Searches, SearchesWindow};
ghost use Rattle.node_search.specs.Weight.{of_pair, tried_symbols, led_run, LeastCost, threshold, Measured, Weighed};
ghost use Rattle.node_search.specs.declared.Hypothesis.{Hypothesis};
ghost use Rattle.node_search.specs.declared.Search.TheVariants.{Nothing};

use answer::Refusal;
use free_start::lead_symbols;
use reader::{read_pairs, symbol_count};
use symbol_turns::{turn_pairs, undoing_turn};

// A hypothesis: the rate, how many symbols stand before the first whole pattern, and the least of the turns that cannot be told from the one it means.
#[derive(Clone, Copy)]
pub struct Hypothesis {
    pub rate: u8,
    pub offset: u8,
    pub turn: u8,
}

// What a search comes to.
#[derive(Clone, Copy)]
pub enum Search {
    // The only hypothesis that is below its threshold.
    Found(Hypothesis),
    // None is.
    Nothing,
    // More than one is.
    Several,
}

// The decisions on the symbols of a window, two as one number. That each is one stays a fact beside it: a type for it would be taken apart at each symbol, and
// `search_window`, which tests it, takes any bytes.
type Window = [u8; 1632];

// The number that asks for any rate.
pub const ANY_RATE: u8 = 5;

// The classes of turns that can be told; at rate 5/6 the first two.
const TURNS: [u8; 4] = [0, 1, 4, 5];

// What a rate has: how many of the classes it tells, how many symbols of a window are read, and the threshold in ten-thousandths.
#[derive(Clone, Copy)]
struct Trial {
    turns: usize,
    symbols: usize,
    threshold: u64,
}

const TRIALS: [Trial; 5] = [
    Trial {
        turns: 4,
        symbols: 1626,
        threshold: 760,
    },
    Trial {
        turns: 4,
        symbols: 1218,
        threshold: 400,
    },
    Trial {
        turns: 4,
        symbols: 1084,
        threshold: 255,
    },
    Trial {
        turns: 2,
        symbols: 972,
        threshold: 120,
    },
    Trial {
        turns: 4,
        symbols: 928,
        threshold: 72,
    },
];

// The decisions on a symbol of which nothing is known.
const UNKNOWN: u8 = 80;

// What the cheaper value of a decided bit costs, and how much more the other does.
const CHEAPER: [u8; 9] = [0, 1, 2, 3, 3, 2, 1, 0, 0];

const APART: [u8; 9] = [7, 5, 3, 1, 1, 3, 5, 7, 0];

// A rate stays a number, and so does a turn: the calls of the library take any and refuse those that are none, and the definitions count with them.
fn tried_symbols(rate: u8) -> usize
    requires { rate < 5 }
    ensures { result ≡ tried_symbols rate }
{
    TRIALS[rate as usize].symbols
}

fn threshold_of(rate: u8) -> u64
    requires { rate < 5 }
    ensures { result ≡ threshold rate }
{
    TRIALS[rate as usize].threshold
}

fn turn_count(rate: u8) -> usize
    requires { rate < 5 }
    ensures { result ≡ length (turns_told rate) }
{
    TRIALS[rate as usize].turns
}

// Hypothesis k of a rate.
fn hypothesis_at(rate: u8, k: usize) -> Hypothesis
    requires { (rate < 5) × (k < hypothesis_count rate) }
    ensures { (result ≡ hypothesis_at rate k) × (result.offset < 4) × (result.turn < 8) }
{
    let turns = turn_count(rate);
    Hypothesis {
        rate,
        offset: (k / turns) as u8,
        turn: TURNS[k % turns],
    }
}

// The sum over both decisions of each pair of the number that a table has for a decision.
fn total_of(table: &[u8; 9], pairs: &[u8]) -> u64
    requires { (All (λ x. x ≤ 7) table.now) × (length table.now ≡ 9) × (All (λ p. p < 81) pairs.now) × (length pairs.now ≤ 1632) }
    ensures { (result ≡ total (of_pair (λ d. get_or table.now d 0)) pairs.now) × (result ≤ 14 * length pairs.now) }
{
    let mut sum: u64 = 0;
    for p in pairs {
        let i = table[(*p / 9) as usize];
        let q = table[(*p % 9) as usize];
        sum += (i + q) as u64;
    }
    sum
}

// Writes the run that is read: unknown symbols, and then the symbols turned back. How many symbols are tried depends on the rate, so they are a slice.
fn lead_run(h: Hypothesis, pairs: &[u8], run: &mut [u8; 1632])
    requires { (h.rate < 5) × (h.turn < 8) × (length pairs.now ≡ tried_symbols h.rate) × (All (λ p. p < 81) pairs.now) }
    ensures { take (length (led_run h.rate h.turn pairs.now)) run.new ≡ led_run h.rate h.turn pairs.now }
{
    let lead = lead_symbols(h.rate);
    run[..lead].fill(UNKNOWN);
    turn_pairs(undoing_turn(h.turn), pairs, &mut run[lead..]);
}

// What reading it costs. It is written to `run`, and read into `bits`.
fn least_cost(h: Hypothesis, pairs: &[u8], run: &mut [u8; 1632], bits: &mut [u8; 1632]) -> u64
    requires { (h.rate < 5) × (h.turn < 8) × (length pairs.now ≡ tried_symbols h.rate) × (All (λ p. p < 81) pairs.now) }
    ensures { (LeastCost h.rate (led_run h.rate h.turn pairs.now) result) × (result ≤ 22848) }
{
    lead_run(h, pairs, run);
    let end = lead_symbols(h.rate) + pairs.len();
    let read = read_pairs(h.rate, 0, &run[..end], bits);
    read.cost
}

// Whether symbols, turned back, are below the threshold of a hypothesis's rate.
fn is_below(h: Hypothesis, pairs: &[u8]) -> bool
    requires { (h.rate < 5) × (h.turn < 8) × (length pairs.now ≡ tried_symbols h.rate) × (All (λ p. p < 81) pairs.now) }
    ensures { Measured h.rate h.turn pairs.now result }
{
    let mut run = [0u8; 1632];
    let mut bits = [0u8; 1632];
    let cost = least_cost(h, pairs, &mut run, &mut bits);
    let floor = total_of(&CHEAPER, pairs);
    let weight = total_of(&APART, pairs);
    10000 * cost < 10000 * floor + threshold_of(h.rate) * weight
}

// Whether a hypothesis about the window is below its threshold.
fn is_candidate(h: Hypothesis, window: &Window) -> bool
    requires { (h.rate < 5) × (h.offset < 4) × (h.turn < 8) × (All (λ p. p < 81) window.now) }
    ensures { Weighed window.now h result }
{
    let offset = h.offset as usize;
    let end = offset + tried_symbols(h.rate);
    is_below(h, &window[offset..end])
}

// What a search has come to with one candidate more.
fn added(search: Search, h: Hypothesis) -> Search
    ensures { result ≡ adding search h }
{
    match search {
        Search::Nothing => Search::Found(h),
        Search::Found(_) => Search::Several,
        Search::Several => Search::Several,
    }
}

// Searches the hypotheses of a rate after others.
fn search_rate(rate: u8, window: &Window, before: Search) -> Search
    requires { (rate < 5) × (All (λ p. p < 81) window.now) }
    ensures { (hs : List Hypothesis) → Searches window.now hs before → Searches window.now (hs ++ hypotheses_of rate) result }
{
    let count = symbol_count(rate) as usize * turn_count(rate);
    let mut found = before;
    for k in 0..count {
        let h = hypothesis_at(rate, k);
        if is_candidate(h, window) {
            found = added(found, h);
        }
    }
    found
}

// Searches the hypotheses of all rates.
fn search_rates(window: &Window) -> Search
    requires { All (λ p. p < 81) window.now }
    ensures { Searches window.now (hypotheses_below 5) result }
{
    let mut found = Search::Nothing;
    for rate in 0..5 {
        found = search_rate(rate, window, found);
    }
    found
}

// Searches a window of received symbols, the decisions on each as one number, at a rate from 0 to 4 or at any rate.
pub fn search_window(rate: u8, window: &[u8]) -> Result<Search, Refusal>
    ensures { SearchesWindow rate window.now (answered result) (given_or Nothing (λ search. search) result) }
{
    if rate > ANY_RATE {
        return Err(Refusal::UnknownRate);
    }
    let Ok(window) = <&Window>::try_from(window) else {
        return Err(Refusal::RunLength);
    };
    if common::largest_of(window) >= 81 {
        return Err(Refusal::SymbolRange);
    }
    if rate < ANY_RATE {
        return Ok(search_rate(rate, window, Search::Nothing));
    }
    Ok(search_rates(window))
}
