// Turns of the QPSK points, on the decisions on I and Q of received symbols.
// Inner: its functions may require what the crates above have tested. docs/ARCHITECTURE.md names the public surface.
#![tactic(auto)]

ghost use Rattle.std.specs.Prelude.{◌≡◌, ◌++◌, map, ◌<◌, ◌≤◌, length, drop};
ghost use Rattle.common.specs.Lists.{All};
ghost use Rattle.symbol_turns.specs.Turn.{undoing, turned_pair, inverse_level, exchanged_pair};

// Whether each turn inverts what is I then, and what is Q. An odd turn exchanges them first.
const INVERTS_I: [u8; 8] = [0, 1, 1, 0, 0, 0, 1, 1];

const INVERTS_Q: [u8; 8] = [0, 0, 1, 1, 1, 0, 0, 1];

// The turn that undoes a turn.
#[tactic(auto, unfolding(crate::specs::Turn::undoing))]
pub fn undoing_turn(turn: u8) -> u8
    requires { turn < 8 }
    ensures { result ≡ undoing turn }
{
    if turn < 4 { (4 - turn) % 4 } else { turn }
}

fn inverse_level(level: u8) -> u8
    requires { level ≤ 8 }
    ensures { (result ≡ inverse_level level) × (result ≤ 8) }
{
    if level < 8 { 7 - level } else { level }
}

// What a turn does to the two decisions of a pair: the three flags are found once for all pairs of a run, and the turn would be looked up again for each.
#[tactic(auto, unfolding(crate::specs::Turn::exchanged_pair))]
fn exchanged_pair(exchange: bool, first: bool, second: bool, p: u8) -> u8
    requires { p < 81 }
    ensures { result ≡ exchanged_pair exchange first second p }
{
    let i = if exchange { p % 9 } else { p / 9 };
    let q = if exchange { p / 9 } else { p % 9 };
    let level_i = if first { inverse_level(i) } else { i };
    let level_q = if second { inverse_level(q) } else { q };
    9 * level_i + level_q
}

// Writes the pair of decisions on each symbol, turned.
pub fn turn_pairs(turn: u8, pairs: &[u8], output: &mut [u8])
    requires { (turn < 8) × (All (λ p. p < 81) pairs.now) × (length pairs.now ≤ length output.old) }
    ensures { output.new ≡ map (turned_pair turn) pairs.now ++ drop (length pairs.now) output.old }
{
    let exchange = turn % 2 == 1;
    let first = INVERTS_I[turn as usize] == 1;
    let second = INVERTS_Q[turn as usize] == 1;
    for (k, p) in pairs.iter().enumerate() {
        output[k] = exchanged_pair(exchange, first, second, *p);
    }
}
