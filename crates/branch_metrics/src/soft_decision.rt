// Soft decisions: the levels of a received point, and the decisions on I and Q of received symbols as the decoder takes them.
// Inner: its functions may require what the crates above have tested. docs/ARCHITECTURE.md names the public surface.
ghost use Rattle.std.specs.Prelude.{cond, ◌≡◌, ℕ, ◌+◌, ◌*◌, ◌<◌, ◌≤◌, length, get_or};
ghost use Rattle.std.specs.Float.Ieee.{le, is_nan};
ghost use Rattle.std.specs.Float.{nan};
ghost use Rattle.common.specs.Choice.{indicator};
ghost use Rattle.branch_metrics.specs.Level.{level_of};
ghost use Rattle.branch_metrics.specs.SoftPairs.{point_levels, number_decision, marked, symbol_pair, symbol_at};

use common::put;

// A received point.
#[derive(Clone, Copy)]
pub struct Point {
    pub i: f32,
    pub q: f32,
}

// 1 where the threshold is at or below x, else 0.
fn reaches(threshold: f32, x: f32) -> u8
    ensures { (result ≡ indicator (le threshold x)) × (result ≤ 1) }
{
    (threshold <= x) as u8
}

// The soft decision on a number, one of eight levels: how many of the thresholds are at or below x. Each is held exactly, as a multiple of a power of two.
fn number_level(x: f32) -> u8
    ensures { (result ≡ level_of x) × (result ≤ 7) }
{
    reaches(-0.75, x)
        + reaches(-0.5, x)
        + reaches(-0.25, x)
        + reaches(0.0, x)
        + reaches(0.25, x)
        + reaches(0.5, x)
        + reaches(0.75, x)
}

// The decision on a number at a level, in a symbol that has a mark. Nothing is known of a lost one, nor of a NaN, which alone differs from itself.
fn decision(x: f32, mark: u8, level: u8) -> u8
    requires { level ≤ 7 }
    ensures { (result ≡ marked mark (cond (is_nan x) 8 level)) × (result ≤ 8) }
{
    if x != x {
        return 8;
    }
    if mark != 0 {
        return 8;
    }
    level
}

fn number_decision(x: f32) -> u8
    ensures { (result ≡ number_decision x) × (result ≤ 8) }
{
    decision(x, 0, number_level(x))
}

// The decisions on I and Q of a point as one number, 9 i + q: each is the level of its number, or 8 for a NaN.
fn point_levels(point: Point) -> u8
    ensures { result ≡ point_levels point }
{
    9 * number_decision(point.i) + number_decision(point.q)
}

// The decisions on a symbol as the demodulator hands it over, in the same way: the point that was received, or none where the symbol was lost.
fn symbol_pair(symbol: Option<Point>) -> u8
    ensures { result ≡ symbol_pair symbol }
{
    match symbol {
        Some(point) => point_levels(point),
        None => 80,
    }
}

// The symbol at a place of the three lists. They stay three, one beside the other, as the calls of the C interface give them: symbols in a list of their own
// would be a copy of the run.
fn received_at(is: &[f32], qs: &[f32], lost: &[u8], at: usize) -> Option<Point>
    requires { (at < length is.now) × (at < length qs.now) × (at < length lost.now) }
    ensures { result ≡ symbol_at is.now qs.now lost.now at }
{
    let i = is[at];
    let q = qs[at];
    if lost[at] == 0 {
        Some(Point { i, q })
    } else {
        None
    }
}

// What follows does the same to sixteen symbols at once, from a place of the lists on: the definitions count from the start of the run.

// What one threshold adds to the levels of sixteen numbers, from a place of a list on.
fn raised(levels: &[u8; 16], threshold: f32, list: &[f32], at: usize) -> [u8; 16]
    requires { (at + 16 ≤ length list.now) × ((i : ℕ) → i < 16 → get_or levels.now i 0 ≤ 6) }
    ensures { (i : ℕ) → i < 16 → (get_or result i 0 ≡ get_or levels.now i 0 + indicator (le threshold (get_or list.now (at + i) nan))) × (get_or result i 0 ≤ get_or levels.now i 0 + 1) }
{
    let mut r = [0u8; 16];
    for i in 0..16 {
        r[i] = levels[i] + reaches(threshold, list[at + i]);
    }
    r
}

// The levels of sixteen numbers: of all after one threshold, before those after the next.
fn sixteen_levels(list: &[f32], at: usize) -> [u8; 16]
    requires { at + 16 ≤ length list.now }
    ensures { (i : ℕ) → i < 16 → (get_or result i 0 ≡ level_of (get_or list.now (at + i) nan)) × (get_or result i 0 ≤ 7) }
{
    let none = [0u8; 16];
    let one = raised(&none, -0.75, list, at);
    let two = raised(&one, -0.5, list, at);
    let three = raised(&two, -0.25, list, at);
    let four = raised(&three, 0.0, list, at);
    let five = raised(&four, 0.25, list, at);
    let six = raised(&five, 0.5, list, at);
    raised(&six, 0.75, list, at)
}

// The decisions on them, by the marks of their symbols.
fn sixteen_decisions(list: &[f32], marks: &[u8], at: usize) -> [u8; 16]
    requires { (at + 16 ≤ length list.now) × (at + 16 ≤ length marks.now) }
    ensures { (i : ℕ) → i < 16 → (get_or result i 0 ≡ marked (get_or marks.now (at + i) 0) (number_decision (get_or list.now (at + i) nan))) × (get_or result i 0 ≤ 8) }
{
    let levels = sixteen_levels(list, at);
    let mut r = [0u8; 16];
    for i in 0..16 {
        r[i] = decision(list[at + i], marks[at + i], levels[i]);
    }
    r
}

fn paired(is: &[u8; 16], qs: &[u8; 16]) -> [u8; 16]
    requires { (k : ℕ) → k < 16 → (get_or is.now k 0 ≤ 8) × (get_or qs.now k 0 ≤ 8) }
    ensures { (k : ℕ) → k < 16 → get_or result k 0 ≡ 9 * get_or is.now k 0 + get_or qs.now k 0 }
{
    let mut r = [0u8; 16];
    for k in 0..16 {
        r[k] = 9 * is[k] + qs[k];
    }
    r
}

// The pairs of sixteen symbols.
fn sixteen_pairs(is: &[f32], qs: &[f32], lost: &[u8], at: usize) -> [u8; 16]
    requires { (at + 16 ≤ length is.now) × (at + 16 ≤ length qs.now) × (at + 16 ≤ length lost.now) }
    ensures { (k : ℕ) → k < 16 → get_or result k 0 ≡ symbol_pair (symbol_at is.now qs.now lost.now (at + k)) }
{
    let a = sixteen_decisions(is, lost, at);
    let b = sixteen_decisions(qs, lost, at);
    paired(&a, &b)
}

// Writes the pairs of whole sixteens of symbols: how many these are.
fn write_sixteens(is: &[f32], qs: &[f32], lost: &[u8], output: &mut [u8]) -> usize
    requires { (length qs.now ≡ length is.now) × (length lost.now ≡ length is.now) × (length is.now ≤ length output.old) }
    ensures { (result ≤ length is.now) × ((t : ℕ) → t < result → get_or output.new t 0 ≡ symbol_pair (symbol_at is.now qs.now lost.now t)) }
{
    let turns = is.len() / 16;
    for n in 0..turns {
        let pairs = sixteen_pairs(is, qs, lost, 16 * n);
        put(&pairs, 16 * n, output);
    }
    16 * turns
}

// Writes the pair of each symbol of a run.
pub fn soft_pairs(is: &[f32], qs: &[f32], lost: &[u8], output: &mut [u8])
    requires { (length qs.now ≡ length is.now) × (length lost.now ≡ length is.now) × (length is.now ≤ length output.old) }
    ensures { (t : ℕ) → t < length is.now → get_or output.new t 0 ≡ symbol_pair (symbol_at is.now qs.now lost.now t) }
{
    let whole = write_sixteens(is, qs, lost, output);
    for k in whole..is.len() {
        output[k] = symbol_pair(received_at(is, qs, lost, k));
    }
}
