// Arithmetic in GF(256) by 11D hex, with no table and no branch on a value.
#![tactic(auto)]

ghost use Rattle.std.specs.Prelude.{◌≡◌};
ghost use Rattle.galois.specs.Field256.{times_x as times_x_of, mul as mul_of};

pub mod lanes;

// a times x.
fn times_x(a: u8) -> u8
    ensures { result ≡ times_x_of a }
{
    (a << 1) ^ ((a >> 7) * 0x1D)
}

// The product, in eight rounds over the bits of b, from the lowest: x is a times the power of the round.
pub fn mul(a: u8, b: u8) -> u8
    ensures { result ≡ mul_of a b }
{
    let mut r: u8 = 0;
    let mut x = a;
    for i in 0..8u8 {
        r ^= ((b >> i) & 1) * x;
        x = times_x(x);
    }
    r
}
