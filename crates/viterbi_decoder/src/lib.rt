// The Viterbi decoder of the mother code, on 64 metrics of a byte each.
// Inner: its functions may require what the crates above have tested. docs/ARCHITECTURE.md names the public surface.
#![tactic(auto)]

ghost use Rattle.std.specs.Prelude.{◌≡◌, [], ◌++◌, reverse, ℕ, ◌+◌, ◌*◌, ◌/◌, ◌%◌, ◌<◌, ◌≤◌, eqb, length, get_or, take, drop};
ghost use Rattle.common.specs.Choice.{pick};
ghost use Rattle.viterbi_decoder.specs.Best.{Decoded};
ghost use Rattle.convolutional_code.specs.Costs.{cost_from, at, decided, one_cost, step_costs, Pairs};
ghost use Rattle.viterbi_decoder.specs.Metric.{far, FirstLeast};
ghost use Rattle.viterbi_decoder.specs.Lanes.{lane, held, CostRows, SumRows, Bounded, row_cost, row_costs, lesser as lesser_of, chosen as chosen_of, Stepped, Forward, low, traced};

// X of the mother code for a bit 0, out of the memory of each lane.
const CODED_X: [u8; 64] = [
    0, 1, 1, 0, 1, 0, 0, 1, 0, 1, 1, 0, 1, 0, 0, 1, 0, 1, 1, 0, 1, 0, 0, 1, 0, 1, 1, 0, 1, 0, 0, 1,
    1, 0, 0, 1, 0, 1, 1, 0, 1, 0, 0, 1, 0, 1, 1, 0, 1, 0, 0, 1, 0, 1, 1, 0, 1, 0, 0, 1, 0, 1, 1, 0,
];

// Y of it.
const CODED_Y: [u8; 64] = [
    0, 0, 1, 1, 1, 1, 0, 0, 0, 0, 1, 1, 1, 1, 0, 0, 1, 1, 0, 0, 0, 0, 1, 1, 1, 1, 0, 0, 0, 0, 1, 1,
    1, 1, 0, 0, 0, 0, 1, 1, 1, 1, 0, 0, 0, 0, 1, 1, 0, 0, 1, 1, 1, 1, 0, 0, 0, 0, 1, 1, 1, 1, 0, 0,
];

// The number of each lane: before the first step of a block each path is at its origin.
const LANES: [u8; 64] = [
    0, 1, 2, 3, 4, 5, 6, 7, 8, 9, 10, 11, 12, 13, 14, 15, 16, 17, 18, 19, 20, 21, 22, 23, 24, 25,
    26, 27, 28, 29, 30, 31, 32, 33, 34, 35, 36, 37, 38, 39, 40, 41, 42, 43, 44, 45, 46, 47, 48, 49,
    50, 51, 52, 53, 54, 55, 56, 57, 58, 59, 60, 61, 62, 63,
];

// What a coded bit costs.
fn decide(bit: u8, zero: u8, one: u8) -> u8
    requires { (zero ≤ 7) × (one ≤ 7) }
    ensures { (result ≡ decided zero one bit) × (result ≤ 7) }
{
    if bit == 0 { zero } else { one }
}

// p if a wins, and q if b does. Compared with the minimum, which is computed already.
fn chosen(a: u8, b: u8, p: u8, q: u8) -> u8
    ensures { result ≡ chosen_of a b p q }
{
    if a.min(b) == a { p } else { q }
}

// The lane of a memory, and the memory of a lane.
fn lane_of(s: usize) -> usize
    requires { s < 64 }
    ensures { (result ≡ lane s) × (result < 64) }
{
    s % 2 * 32 + s / 2 % 2 * 16 + s / 4 % 2 * 8 + s / 8 % 2 * 4 + s / 16 % 2 * 2 + s / 32 % 2
}

// What a coded bit costs in each lane, where deciding it as 0 costs zero, and as 1 one.
fn coded_costs(bits: &[u8; 64], zero: u8, one: u8) -> [u8; 64]
    requires { (zero ≤ 7) × (one ≤ 7) }
    ensures { (i : ℕ) → i < 64 → at result i ≡ decided zero one (at bits.now i) }
{
    common::array_of(|i| decide(bits[i], zero, one))
}

// What deciding a coded bit as 1 costs by the decision that was received on it. Deciding it as 0 costs 7 less the decision.
fn one_cost(decision: u8) -> u8
    ensures { (result ≡ one_cost decision) × (result ≤ 7) }
{
    if decision < 8 { decision } else { 0 }
}

// Tabulates `coded_costs` for the nine decisions.
fn write_costs(bits: &[u8; 64], rows: &mut [[u8; 64]; 9])
    requires { length rows.old ≡ 9 }
    ensures { CostRows (at bits.now) rows.new }
{
    for n in 0..9u8 {
        rows[n as usize] = coded_costs(bits, 7u8.saturating_sub(n), one_cost(n));
    }
}

fn sums(x: &[u8; 64], y: &[u8; 64]) -> [u8; 64]
    requires { (i : ℕ) → i < 64 → at x.now i + at y.now i < 256 }
    ensures { (i : ℕ) → i < 64 → at result i ≡ at x.now i + at y.now i }
{
    common::array_of(|i| x[i] + y[i])
}

// The branch metrics of each step that there can be: row 9 x + y has the sums of row x of X and row y of Y.
fn write_sums(xs: &[[u8; 64]; 9], ys: &[[u8; 64]; 9], rows: &mut [[u8; 64]; 81])
    requires { (length rows.old ≡ 81) × ((x y i : ℕ) → x < 9 → y < 9 → i < 64 → at (get_or xs.now x []) i + at (get_or ys.now y []) i < 256) }
    ensures { SumRows xs.now ys.now rows.new }
{
    for n in 0..81 {
        rows[n] = sums(&xs[n / 9], &ys[n % 9]);
    }
}

// The branch metrics of a step for bit 0, out of the even memories and out of the odd ones.
#[derive(Clone, Copy)]
struct BranchMetrics {
    even: [u8; 32],
    odd: [u8; 32],
}

fn halves(row: &[u8; 64]) -> BranchMetrics
    ensures { ((i : ℕ) → i < 32 → at result.even i ≡ at row.now i)
        × ((i : ℕ) → i < 32 → at result.odd i ≡ at row.now (i + 32)) }
{
    BranchMetrics {
        even: common::array_of(|i| row[i]),
        odd: common::array_of(|i| row[i + 32]),
    }
}

// Add, compare, select: the path metric of each of 32 memories, which is the lesser of the ways into it, from lane i and from lane i + 32.
fn lesser_ways(metrics: &[u8; 64], costs: &[u8; 32], others: &[u8; 32]) -> [u8; 32]
    requires { (i : ℕ) → i < 32 → (at metrics.now i + at costs.now i < 256) × (at metrics.now (i + 32) + at others.now i < 256) }
    ensures { (i : ℕ) → i < 32 → at result i ≡ lesser_of (at metrics.now i + at costs.now i) (at metrics.now (i + 32) + at others.now i) }
{
    common::array_of(|i| (metrics[i] + costs[i]).min(metrics[i + 32] + others[i]))
}

// The origins that go with the ways selected.
fn ways_chosen(
    metrics: &[u8; 64],
    costs: &[u8; 32],
    others: &[u8; 32],
    origins: &[u8; 64],
) -> [u8; 32]
    requires { (i : ℕ) → i < 32 → (at metrics.now i + at costs.now i < 256) × (at metrics.now (i + 32) + at others.now i < 256) }
    ensures { (i : ℕ) → i < 32 → at result i ≡ chosen_of (at metrics.now i + at costs.now i) (at metrics.now (i + 32) + at others.now i) (at origins.now i) (at origins.now (i + 32)) }
{
    common::array_of(|i| {
        chosen(
            metrics[i] + costs[i],
            metrics[i + 32] + others[i],
            origins[i],
            origins[i + 32],
        )
    })
}

// The values of the memories with newest bit 0 in the even lanes, and of those with newest bit 1 in the odd ones.
fn woven(low: &[u8; 32], high: &[u8; 32]) -> [u8; 64]
    ensures { (i : ℕ) → i < 32 → (at result (2 * i) ≡ at low.now i) × (at result (2 * i + 1) ≡ at high.now i) }
{
    let mut r = [0u8; 64];
    for i in 0..32 {
        r[2 * i] = low[i];
        r[2 * i + 1] = high[i];
    }
    r
}

#[derive(Clone, Copy)]
struct Row {
    metrics: [u8; 64],
    origins: [u8; 64],
}

// One step of the trellis: the path metrics of all memories, and the origins of their paths, from a row of what bit 0 costs out of each lane.
fn step(row: &[u8; 64], metrics: &[u8; 64], origins: &[u8; 64]) -> Row
    requires { ((i : ℕ) → i < 64 → at row.now i ≤ 14) × ((t : ℕ) → t < 64 → at metrics.now t ≤ 241) }
    ensures { Stepped (held metrics.now) (row_cost row.now) origins.now result.metrics result.origins }
{
    let costs = halves(row);
    let low = lesser_ways(metrics, &costs.even, &costs.odd);
    let high = lesser_ways(metrics, &costs.odd, &costs.even);
    let low_from = ways_chosen(metrics, &costs.even, &costs.odd, origins);
    let high_from = ways_chosen(metrics, &costs.odd, &costs.even, origins);
    Row {
        metrics: woven(&low, &high),
        origins: woven(&low_from, &high_from),
    }
}

// The metrics before the first step. A memory stays a number below 64: it indexes the lanes, callers hold it as a byte, and the definitions count with it.
fn start(memory: usize) -> [u8; 64]
    requires { memory < 64 }
    ensures { (s : ℕ) → s < 64 → held result s ≡ pick (eqb s memory) 0 far }
{
    let mut m = [85u8; 64];
    m[lane_of(memory)] = 0;
    m
}

// The metrics in the order of the memories.
fn ordered(metrics: &[u8; 64]) -> [u8; 64]
    ensures { (s : ℕ) → s < 64 → at result s ≡ held metrics.now s }
{
    common::array_of(|s| metrics[lane_of(s)])
}

// The first of the memories with the least metric.
fn first_least(metrics: &[u8; 64]) -> usize
    ensures { FirstLeast (at metrics.now) 64 result }
{
    let mut best = 0;
    for s in 1..64 {
        if metrics[s] < metrics[best] {
            best = s;
        }
    }
    best
}

#[derive(Clone, Copy)]
struct Survivors {
    metrics: [u8; 64],
    offset: usize,
}

// Normalization of the metrics: all are lowered alike, so that lane 0 has at most 84.
fn levelled(metrics: &[u8; 64], offset: usize) -> Survivors
    requires { (offset ≤ 30000) × ((s t : ℕ) → s < 64 → t < 64 → at metrics.now s ≤ at metrics.now t + 84) }
    ensures { ((t : ℕ) → t < 64 → at result.metrics t + result.offset ≡ at metrics.now t + offset) × ((t : ℕ) → t < 64 → at result.metrics t ≤ 168) }
{
    let by = metrics[0].saturating_sub(84);
    Survivors {
        metrics: common::array_of(|t| metrics[t] - by),
        offset: offset + by as usize,
    }
}

// All n steps: the metrics after them, and a row of 64 origins for each block of six, where the origin of a lane is the lane that its path was in before the
// block. The steps that are left over make a shorter block, which comes first and needs no row.
// That each step is a pair of decisions, `Pairs`, stays a fact: the steps are bytes in a buffer of the caller's, each an index into the costs.
fn forward(
    costs: &[[u8; 64]; 81],
    steps: &[u8],
    memory: usize,
    n: usize,
    rows: &mut [u8],
) -> Survivors
    requires { (Bounded costs.now) × (n ≤ length steps.now) × (n ≤ 1632) × (memory < 64) × Pairs steps.now × (64 * (n / 6) ≤ length rows.old) }
    ensures { Forward (row_costs costs.now steps.now) memory n result.metrics result.offset rows.new }
{
    let mut metrics = start(memory);
    let mut offset = 0;
    for block in 0..n / 6 + 1 {
        let end = n % 6 + 6 * block;
        let from = end.saturating_sub(6);
        let mut origins = LANES;
        for k in from..end {
            let row = step(&costs[steps[k] as usize], &metrics, &origins);
            metrics = row.metrics;
            origins = row.origins;
        }
        if block > 0 {
            common::put(&origins, 64 * (block - 1), rows);
            let level = levelled(&metrics, offset);
            metrics = level.metrics;
            offset = level.offset;
        }
    }
    Survivors { metrics, offset }
}

// Writes the n low bits of a lane into the output from a place on, the lowest last.
fn write_low(lane: usize, n: usize, place: usize, output: &mut [u8])
    requires { place + n ≤ length output.old }
    ensures { output.new ≡ take place output.old ++ reverse (low n lane) ++ drop (place + n) output.old }
{
    let mut r = lane;
    for i in (0..n).rev() {
        output[place + i] = (r % 2) as u8;
        r /= 2;
    }
}

// Traceback: the path that ends in a lane, written from its last bits back. A lane's number is the six newest bits of its path.
fn trace(rows: &[u8], end: usize, output: &mut [u8])
    requires { (64 * (length output.old / 6) ≤ length rows.now) × (end < 64) × ((i : ℕ) → i < 64 * (length output.old / 6) → at rows.now i < 64) }
    ensures { output.new ≡ reverse (traced rows.now (length output.old % 6) (length output.old / 6) end) }
{
    let n = output.len();
    let rest = n % 6;
    let mut r = end;
    for b in (0..n / 6).rev() {
        write_low(r, 6, rest + 6 * b, output);
        r = rows[64 * b + r] as usize;
    }
    write_low(r, rest, 0, output);
}

#[derive(Clone, Copy)]
pub struct DecodedRun {
    pub memory: usize,
    pub cost: usize,
}

// The best bits of a run by the costs of the rows, into the output.
fn decode_rows(costs: &[[u8; 64]; 81], steps: &[u8], memory: usize, output: &mut [u8]) -> DecodedRun
    requires { (Bounded costs.now) × (length output.old ≤ length steps.now) × (length output.old ≤ 1632) × (memory < 64) × Pairs steps.now }
    ensures { Decoded (cost_from (row_costs costs.now steps.now) 0 memory) (length output.old) memory output.new result.cost result.memory }
{
    let mut rows = [0u8; 17408];
    let last = forward(costs, steps, memory, output.len(), &mut rows);
    let metrics = ordered(&last.metrics);
    let end = first_least(&metrics);
    trace(&rows, lane_of(end), output);
    DecodedRun {
        memory: end,
        cost: metrics[end] as usize + last.offset,
    }
}

// The best bits of a run, into the output. There is one number for each bit, 9 x + y, where x is the decision on its X and y that on its Y.
pub fn decode(steps: &[u8], memory: usize, output: &mut [u8]) -> DecodedRun
    requires { (length output.old ≤ length steps.now) × (length output.old ≤ 1632) × (memory < 64) × Pairs steps.now }
    ensures { Decoded (cost_from (step_costs steps.now) 0 memory) (length output.old) memory output.new result.cost result.memory }
{
    let mut x_costs = [[0u8; 64]; 9];
    write_costs(&CODED_X, &mut x_costs);
    let mut y_costs = [[0u8; 64]; 9];
    write_costs(&CODED_Y, &mut y_costs);
    let mut costs = [[0u8; 64]; 81];
    write_sums(&x_costs, &y_costs, &mut costs);
    decode_rows(&costs, steps, memory, output)
}
