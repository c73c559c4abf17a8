// Whole patterns of a block: the symbols of each rate's list, from where their coded bits stand.
ghost use Rattle.std.specs.Prelude.{◌≡◌, ℕ, ◌+◌, ◌*◌, ◌<◌, ◌≤◌, length, get_or};
ghost use Rattle.common.specs.Lists.{placed};
ghost use Rattle.convolutional_code.specs.Bits.{Bits};
ghost use Rattle.puncturing.specs.Mode.{qpsk_count};
ghost use Rattle.puncturing.specs.Step.{pattern_length};
ghost use Rattle.puncturing.specs.Run.{pattern_symbols, patterns_symbols, i_bits, q_bits};

use code_tables::{I_1_2, I_2_3, I_3_4, I_5_6, I_7_8, Q_1_2, Q_2_3, Q_3_4, Q_5_6, Q_7_8};

// One pattern whose first bit is bit n: each symbol from where its I and its Q stand.
fn pattern(coded: &[u8], n: usize, i: &[usize], q: &[usize], output: &mut [u8], at: usize)
    requires { (Bits coded.now)
        × (length i.now ≤ 4)
        × (length i.now ≡ length q.now)
        × ((j : ℕ) → n + get_or i.now j 0 < length coded.now)
        × ((j : ℕ) → n + get_or q.now j 0 < length coded.now)
        × (at + length i.now ≤ length output.old) }
    ensures { output.new ≡ placed output.old at (pattern_symbols i.now q.now coded.now n) }
{
    for j in 0..i.len() {
        output[at + j] = 2 * coded[n + i[j]] + coded[n + q[j]];
    }
}

// Patterns of the given length, one after another, from bit from on. Gives how far the output is written.
fn patterns(
    coded: &[u8; 3264],
    from: usize,
    i: &[usize],
    q: &[usize],
    len: usize,
    turns: usize,
    output: &mut [u8],
    at: usize,
) -> usize
    requires { (Bits coded.now)
        × (length i.now ≤ 4)
        × (length i.now ≡ length q.now)
        × ((j : ℕ) → get_or i.now j 0 < 1632 + len)
        × ((j : ℕ) → get_or q.now j 0 < 1632 + len)
        × (from + turns * len ≤ 1632)
        × (at + turns * length i.now ≤ length output.old) }
    ensures { (result ≡ at + turns * length i.now)
        × (output.new
        ≡ placed output.old at (patterns_symbols i.now q.now coded.now len from turns)) }
{
    for turn in 0..turns {
        pattern(coded, from + turn * len, i, q, output, at + turn * i.len());
    }
    at + turns * i.len()
}

// Whole patterns of a rate, from bit from on. The symbols are those of document 01, as (I,Q).
pub fn whole_patterns(
    rate: u8,
    coded: &[u8; 3264],
    from: usize,
    turns: usize,
    output: &mut [u8],
    at: usize,
) -> usize
    requires { (rate < qpsk_count)
        × (Bits coded.now)
        × (from + turns * pattern_length rate ≤ 1632)
        × (at + turns * length (i_bits rate) ≤ length output.old) }
    ensures { (result ≡ at + turns * length (i_bits rate))
        × (output.new
        ≡ placed output.old at (patterns_symbols (i_bits rate) (q_bits rate) coded.now (pattern_length rate) from turns)) }
{
    // A call for each rate, which is compiled for its table and the length of its pattern.
    match rate {
        0 => patterns(coded, from, &I_1_2, &Q_1_2, 1, turns, output, at),
        1 => patterns(coded, from, &I_2_3, &Q_2_3, 4, turns, output, at),
        2 => patterns(coded, from, &I_3_4, &Q_3_4, 3, turns, output, at),
        3 => patterns(coded, from, &I_5_6, &Q_5_6, 5, turns, output, at),
        _ => patterns(coded, from, &I_7_8, &Q_7_8, 7, turns, output, at),
    }
}
