// Bits packed into bytes, eight to a byte, the first on top. They come in pieces, and those that fill no byte yet are carried from one call to the next.
// Inner: its functions may require what the crates above have tested. docs/ARCHITECTURE.md names the public surface.
#![tactic(auto)]

ghost use Rattle.std.specs.Prelude.{◌≡◌, [], ◌++◌, ◌+◌, ◌*◌, ◌/◌, ◌%◌, ◌<◌, ◌≤◌, length, get_or, drop};
ghost use Rattle.convolutional_code.specs.Bits.{Bits};
ghost use Rattle.bit_packing.specs.Packing.{packed_bytes, carried_bits, Packs};

// The bits that fill no byte yet, which are the last `held` of `carry`, and how many bytes were packed.
#[derive(Clone, Copy)]
pub struct Packed {
    pub carry: u8,
    pub held: usize,
    pub count: usize,
}

// Four bits as a number, the first on top. As bytes of a word they stand eight places apart. The product with four powers of two that are nine places apart has
// one copy of each in the places 24 to 27, the first on top, and no two copies in one place.
fn gathered(a: u8, b: u8, c: u8, d: u8) -> u64
    requires { (a < 2) × (b < 2) × (c < 2) × (d < 2) }
    ensures { (result ≡ 8 * a + 4 * b + 2 * c + d) × (result < 16) }
{
    (a as u64 + 256 * b as u64 + 65536 * c as u64 + 16777216 * d as u64) * 134480385 / 16777216 % 16
}

// Four bits from a place on. That each byte is a bit stays a fact: the decoder gives bytes, of which eight at a time are multiplied as numbers.
fn four_bits(bits: &[u8], at: usize) -> u64
    requires { (Bits bits.now) × (at + 4 ≤ length bits.now) }
    ensures { (result ≡ 8 * get_or bits.now at 0 + 4 * get_or bits.now (at + 1) 0 + 2 * get_or bits.now (at + 2) 0 + get_or bits.now (at + 3) 0) × (result < 16) }
{
    gathered(bits[at], bits[at + 1], bits[at + 2], bits[at + 3])
}

// Packs bits that fill bytes: how many bytes.
fn pack_bytes(bits: &[u8], output: &mut [u8]) -> usize
    requires { (Bits bits.now) × (length bits.now % 8 ≡ 0) × (length bits.now ≤ 8 * length output.old) }
    ensures { (result ≡ length bits.now / 8) × (output.new ≡ packed_bytes bits.now ++ drop result output.old) }
{
    let count = bits.len() / 8;
    for k in 0..count {
        let upper = four_bits(bits, 8 * k);
        let lower = four_bits(bits, 8 * k + 4);
        output[k] = (16 * upper + lower) as u8;
    }
    count
}

// The same as pack, bit by bit.
fn pack_bits(carry: u8, held: usize, bits: &[u8], output: &mut [u8]) -> Packed
    requires { (held < 8) × (Bits bits.now) × (held + length bits.now < 8 * length output.old + 8) }
    ensures { Packs (carried_bits carry held) bits.now output.old result.carry result.held result.count output.new }
{
    let mut byte = carry;
    let mut n = held;
    let mut k: usize = 0;
    for bit in bits {
        byte = byte % 128 * 2 + *bit;
        n += 1;
        if n == 8 {
            output[k] = byte;
            k += 1;
            n = 0;
        }
    }
    Packed {
        carry: byte,
        held: n,
        count: k,
    }
}

// Packs bits where none are carried: by bytes, and then those that fill none.
fn pack_fresh(bits: &[u8], output: &mut [u8]) -> Packed
    requires { (Bits bits.now) × (length bits.now < 8 * length output.old + 8) }
    ensures { Packs [] bits.now output.old result.carry result.held result.count output.new }
{
    let end = bits.len() / 8 * 8;
    let whole = pack_bytes(&bits[..end], output);
    let last = pack_bits(0, 0, &bits[end..], &mut output[whole..]);
    Packed {
        carry: last.carry,
        held: last.held,
        count: whole + last.count,
    }
}

// Packs the bits that are carried and then those of a piece: the bytes stand at the front of the output.
pub fn pack(carry: u8, held: usize, bits: &[u8], output: &mut [u8]) -> Packed
    requires { (held < 8) × (Bits bits.now) × (held + length bits.now < 8 * length output.old + 8) }
    ensures { Packs (carried_bits carry held) bits.now output.old result.carry result.held result.count output.new }
{
    let lacking = (8 - held) % 8;
    if bits.len() < lacking {
        return pack_bits(carry, held, bits, output);
    }
    let first = pack_bits(carry, held, &bits[..lacking], output);
    let filled = first.count;
    let rest = pack_fresh(&bits[lacking..], &mut output[filled..]);
    Packed {
        carry: rest.carry,
        held: rest.held,
        count: filled + rest.count,
    }
}
