// The convolutional mother code: G1 = 171 octal gives X, G2 = 133 octal gives Y.
// Inner: its functions may require what the crates above have tested. docs/ARCHITECTURE.md names the public surface.
#![tactic(auto)]

ghost use Rattle.std.specs.Prelude.{◌≡◌, ℕ, [], ◌∷◌, ◌++◌, ◌+◌, ◌*◌, ◌%◌, ◌≤◌, ◌<◌, length, get_or, drop};
ghost use Rattle.convolutional_code.specs.Bits.{bits_of, Bits};
ghost use Rattle.convolutional_code.specs.Code.{taps_x, taps_y, coded, next_memory, memory_after, block_mother};
ghost use Rattle.convolutional_code.specs.Sweep.{oldest, offsets_x, offsets_y, sweep, memory_at};

// A bit goes as a number, 0 or 1, here and below: it is summed with those of the memory.
pub fn x_of(memory: u8, bit: u8) -> u8
    requires { bit < 2 }
    ensures { result ≡ coded taps_x memory bit }
{
    parity(
        bit,
        memory / 32 % 2,
        memory / 16 % 2,
        memory / 8 % 2,
        memory % 2,
    )
}

pub fn y_of(memory: u8, bit: u8) -> u8
    requires { bit < 2 }
    ensures { result ≡ coded taps_y memory bit }
{
    parity(
        bit,
        memory / 16 % 2,
        memory / 8 % 2,
        memory / 2 % 2,
        memory % 2,
    )
}

pub fn next_memory(memory: u8, bit: u8) -> u8
    requires { (memory < 64) × (bit < 2) }
    ensures { result ≡ next_memory memory bit }
{
    bit * 32 + memory / 2
}

// Writes the bits of the memory, the oldest first, one to a byte.
fn unpack_memory(memory: u8, output: &mut [u8])
    requires { 6 ≤ length output.old }
    ensures { output.new ≡ oldest memory ++ drop 6 output.old }
{
    output[0] = memory % 2;
    output[1] = memory / 2 % 2;
    output[2] = memory / 4 % 2;
    output[3] = memory / 8 % 2;
    output[4] = memory / 16 % 2;
    output[5] = memory / 32 % 2;
}

// Writes the bits of a byte, the top bit first, one to a byte.
fn unpack_byte(b: u8, output: &mut [u8])
    requires { 8 ≤ length output.old }
    ensures { output.new ≡ bits_of (b ∷ []) ++ drop 8 output.old }
{
    output[0] = b / 128 % 2;
    output[1] = b / 64 % 2;
    output[2] = b / 32 % 2;
    output[3] = b / 16 % 2;
    output[4] = b / 8 % 2;
    output[5] = b / 4 % 2;
    output[6] = b / 2 % 2;
    output[7] = b % 2;
}

// Writes the bits of the memory and of some bytes.
fn unpack(memory: u8, bytes: &[u8], history: &mut [u8])
    requires { (length bytes.now ≤ 204) × (length history.old ≡ 8 * length bytes.now + 6) }
    ensures { history.new ≡ oldest memory ++ bits_of bytes.now }
{
    unpack_memory(memory, history);
    for (i, b) in bytes.iter().enumerate() {
        let n = 8 * i + 6;
        unpack_byte(*b, &mut history[n..]);
    }
}

// The sum of five bits, modulo 2.
fn parity(a: u8, b: u8, c: u8, d: u8, e: u8) -> u8
    requires { (a < 2) × (b < 2) × (c < 2) × (d < 2) × (e < 2) }
    ensures { result ≡ (a + (b + (c + (d + (e + 0))))) % 2 }
{
    (a + b + c + d + e) % 2
}

// Writes a coded bit for each bit but the first six. The taps are counted from the oldest of seven bits.
// That each byte of a history is a bit stays a fact beside it: the sums are of the bytes as numbers.
fn convolve(history: &[u8], taps: [usize; 5], coded: &mut [u8])
    requires { (Bits history.now)
        × (length coded.old ≤ 1632)
        × (length history.now ≡ length coded.old + 6)
        × ((i : ℕ) → get_or taps i 0 ≤ 6) }
    ensures { coded.new ≡ sweep taps history.now 0 (length coded.old) }
{
    let [a, b, c, d, e] = taps;
    for n in 0..coded.len() {
        coded[n] = parity(
            history[n + a],
            history[n + b],
            history[n + c],
            history[n + d],
            history[n + e],
        );
    }
}

// Writes X and then Y of each bit but the first six.
fn mother(history: &[u8], bits: usize, coded: &mut [u8])
    requires { (Bits history.now) × (bits ≤ 1632) × (length history.now ≡ bits + 6) × (length coded.old ≡ bits + bits) }
    ensures { coded.new ≡ sweep offsets_x history.now 0 bits ++ sweep offsets_y history.now 0 bits }
{
    convolve(history, [6, 5, 4, 3, 0], &mut coded[..bits]);
    convolve(history, [6, 4, 3, 1, 0], &mut coded[bits..]);
}

// The number that six bits make, the oldest first.
fn six_bits(a: u8, b: u8, c: u8, d: u8, e: u8, f: u8) -> u8
    requires { (a < 2) × (b < 2) × (c < 2) × (d < 2) × (e < 2) × (f < 2) }
    ensures { result ≡ a + 2 * b + 4 * c + 8 * d + 16 * e + 32 * f }
{
    a + 2 * b + 4 * c + 8 * d + 16 * e + 32 * f
}

// The memory that the last six bits make.
fn memory_of(history: &[u8], bits: usize) -> u8
    requires { (Bits history.now) × (bits ≤ 1632) × (length history.now ≡ bits + 6) }
    ensures { result ≡ memory_at history.now bits }
{
    six_bits(
        history[bits],
        history[bits + 1],
        history[bits + 2],
        history[bits + 3],
        history[bits + 4],
        history[bits + 5],
    )
}

// Writes X and then Y of each bit of some bytes, at most those of a block. Gives the memory after them. The history is lent for the bits of the memory
// and of the bytes.
pub fn code_bytes(memory: u8, bytes: &[u8], history: &mut [u8], coded: &mut [u8]) -> u8
    requires { (memory < 64)
        × (length bytes.now ≤ 204)
        × (length history.old ≡ 8 * length bytes.now + 6)
        × (length coded.old ≡ 16 * length bytes.now) }
    ensures { (result ≡ memory_after memory (bits_of bytes.now))
        × (coded.new ≡ block_mother memory (bits_of bytes.now)) }
{
    let bits = 8 * bytes.len();
    unpack(memory, bytes, history);
    mother(history, bits, coded);
    memory_of(history, bits)
}
