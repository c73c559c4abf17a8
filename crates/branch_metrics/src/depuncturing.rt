// Depuncturing: the decisions on the coded bits received, put where the steps of the trellis want them.
// Inner: its functions may require what the crates above have tested. docs/ARCHITECTURE.md names the public surface.
ghost use Rattle.std.specs.Prelude.{◌≡◌, ℕ, ◌+◌, ◌*◌, ◌/◌, ◌%◌, ◌<◌, ◌≤◌, length, get_or};
ghost use Rattle.convolutional_code.specs.Costs.{Pairs};
ghost use Rattle.puncturing.specs.Mode.{qpsk_count};
ghost use Rattle.puncturing.specs.Step.{pattern_length};
ghost use Rattle.branch_metrics.specs.Steps.{kind_of, width, first, decision_at, step_pair, run_step};

use common::put;

// Which coded bits of a step are sent: at least one is.
#[derive(Clone, Copy)]
enum Sent {
    OnlyY,
    OnlyX,
    Both,
}

use Sent::{Both, OnlyX, OnlyY};

// For each rate, seven to a row, and each place of its pattern. What stands behind the pattern is never looked at.
const SENT_KINDS: [Sent; 35] = [
    Both, Both, Both, Both, Both, Both, Both, Both, OnlyY, Both, OnlyY, Both, Both, Both, Both,
    OnlyY, OnlyX, Both, Both, Both, Both, Both, OnlyY, OnlyX, OnlyY, OnlyX, Both, Both, Both,
    OnlyY, OnlyY, OnlyY, OnlyX, OnlyY, OnlyX,
];

// The decisions on the coded bits of a step as one number, 9 x + y, of which the decoder takes its branch metrics; and the first coded bit after it.
#[derive(Clone, Copy)]
struct DepuncturedStep {
    pair: u8,
    next: usize,
}

// The decision on coded bit j: on I of a symbol, or on its Q.
// That each number is a pair of decisions, `Pairs`, stays a fact: a run is bytes in a buffer of the caller's, and a pair is cut by its quotient and remainder.
fn decision_at(pairs: &[u8], j: usize) -> u8
    requires { (j / 2 < length pairs.now) × Pairs pairs.now }
    ensures { (result ≡ decision_at pairs.now j) × (result ≤ 8) }
{
    let pair = pairs[j / 2];
    if j % 2 == 0 { pair / 9 } else { pair % 9 }
}

// A step whose first coded bit is j. The decision on one that is not sent is 8.
fn step_of(pairs: &[u8], sent: Sent, j: usize) -> DepuncturedStep
    requires { (j + width (kind_of sent) ≤ 2 * length pairs.now) × Pairs pairs.now }
    ensures { (result.pair ≡ step_pair pairs.now (kind_of sent) j) × (result.next ≡ j + width (kind_of sent)) }
{
    let a = decision_at(pairs, j);
    match sent {
        Sent::OnlyY => DepuncturedStep {
            pair: 72 + a,
            next: j + 1,
        },
        Sent::OnlyX => DepuncturedStep {
            pair: 9 * a + 8,
            next: j + 1,
        },
        Sent::Both => DepuncturedStep {
            pair: 9 * a + decision_at(pairs, j + 1),
            next: j + 2,
        },
    }
}

// A pattern's length, from 1 to 7, is a number that the caller has from its rate; the bounds are asked for so that no proof opens the table of lengths.
// The place after one in a pattern. It is the remainder by the pattern's length, which costs more to compute.
fn following(place: usize, pattern: usize) -> usize
    requires { (place < pattern) × (pattern ≤ 7) }
    ensures { result ≡ (place + 1) % pattern }
{
    let next = place + 1;
    if next < pattern { next } else { 0 }
}

// Writes the decisions of n steps, place by place of the pattern.
fn spread_places(pairs: &[u8], rate: usize, pattern: usize, n: usize, output: &mut [u8])
    requires { (rate < qpsk_count) × (pattern ≡ pattern_length rate) × (0 < pattern) × (pattern ≤ 7) × (first rate n ≤ 2 * length pairs.now) × (n ≤ length output.old) × Pairs pairs.now }
    ensures { (length output.new ≡ length output.old) × ((t : ℕ) → t < n → get_or output.new t 0 ≡ run_step pairs.now rate t) }
{
    // Once, and not in each turn: a compiler lays the table out where it is looked into.
    let kinds = SENT_KINDS;
    let mut place = 0;
    let mut j = 0;
    for k in 0..n {
        let sent = kinds[7 * rate + place];
        let step = step_of(pairs, sent, j);
        output[k] = step.pair;
        j = step.next;
        place = following(place, pattern);
    }
}

// Those of n whole patterns at rate 3/4, which satellites use the most: X1 and Y1, then Y2 and X3.
fn spread_3_4(pairs: &[u8], n: usize, output: &mut [u8])
    requires { (2 * n ≤ length pairs.now) × (3 * n ≤ length output.old) × Pairs pairs.now }
    ensures { (length output.new ≡ length output.old) × ((t : ℕ) → t < 3 * n → get_or output.new t 0 ≡ run_step pairs.now 2 t) }
{
    for k in 0..n {
        output[3 * k] = pairs[2 * k];
        let pair = pairs[2 * k + 1];
        output[3 * k + 1] = 72 + pair / 9;
        output[3 * k + 2] = 9 * (pair % 9) + 8;
    }
}

// Writes the decisions of n steps. At rate 1/2 every coded bit is sent, and a symbol is a step.
pub fn spread_pairs(pairs: &[u8], rate: usize, pattern: usize, n: usize, output: &mut [u8])
    requires { (rate < qpsk_count) × (pattern ≡ pattern_length rate) × (0 < pattern) × (pattern ≤ 7) × (first rate n ≤ 2 * length pairs.now) × (n ≤ length output.old) × Pairs pairs.now }
    ensures { (length output.new ≡ length output.old) × ((t : ℕ) → t < n → get_or output.new t 0 ≡ run_step pairs.now rate t) }
{
    if rate == 0 {
        put(&pairs[..n], 0, output);
        return;
    }
    if rate == 2 && n % 3 == 0 {
        spread_3_4(pairs, n / 3, output);
        return;
    }
    spread_places(pairs, rate, pattern, n, output);
}
