// Sixteen bytes times one factor after the other.
ghost use Rattle.std.specs.Prelude.{◌≡◌};
ghost use Rattle.kernels.specs.Scale.{scaled_by};

// Each factor makes all sixteen wait for the one before.
pub fn scale_by(first: [u8; 16], factors: &[u8]) -> [u8; 16]
    ensures { result ≡ scaled_by factors.now first }
{
    let mut a = first;
    for factor in factors {
        let next = galois::lanes::scale(a, *factor);
        a = next;
    }
    a
}
