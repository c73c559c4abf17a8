// Where the errors are, and what they are. At an erasure, a byte that is marked, there may be one.
// Inner: its functions may require what the crates above have tested. docs/ARCHITECTURE.md names the public surface.
#![tactic(auto)]

ghost use Rattle.std.specs.Prelude.{◌≡◌, ◌∷◌, ℕ, ◌+◌, ◌-◌, ◌<◌, ◌≤◌, eqb, length, get_or, take, drop};
ghost use Rattle.common.specs.Choice.{indicator};
ghost use Rattle.algebra.proofs.Polynomial.{Zero};
ghost use Rattle.galois.proofs.Instance.{bytes};
ghost use Rattle.galois.proofs.Elements.{elements};
ghost use Rattle.error_correction.specs.Correction.{EndsAt, Unmarked, ByDegree, masked, Masked, zeros_from, NoZero, Listed, roots_of, one_polynomial, FoundRoots, monic, RootProduct, FractionsAt, ErrorValues, corrected_by, changed_in};

// The degrees of the erasures and those at which the locator vanishes, in order, their places, and how many they are. The places after them are zero.
// Arrays with a count: there are at most sixteen, no memory is taken for them, and the sums over the places go over all sixteen lanes at once.
#[derive(Clone, Copy)]
pub struct Roots {
    pub degrees: [u8; 16],
    pub places: [u8; 16],
    pub count: usize,
}

impl Roots {
    // No root yet.
    const NONE: Roots = Roots {
        degrees: [0; 16],
        places: [0; 16],
        count: 0,
    };
}

// The marks of a block by degree, and four zeros; count says how many bytes are marked.
pub fn by_degree(marks: &[u8], count: usize) -> [u8; 208]
    requires { (length marks.now ≡ 204) × (count ≡ 0 → Unmarked marks.now) }
    ensures { ByDegree marks.now result }
{
    let mut u = [0u8; 208];
    if count == 0 {
        return u;
    }
    for d in 0..204 {
        u[d] = marks[203 - d];
    }
    u
}

// A value, and zero where the mark m is not zero.
fn masked_value(m: u8, v: u8) -> u8
    ensures { result ≡ masked m v }
{
    if m == 0 { v } else { 0 }
}

// The same, lane by lane.
fn masked_values(m: [u8; 16], v: [u8; 16]) -> [u8; 16]
    ensures { Masked m v result }
{
    common::array_of(|j| masked_value(m[j], v[j]))
}

// Sixteen values from degree i on, and zero at the erasures; f says how many there are, and without any the values stay.
fn with_erasures(u: &[u8], f: usize, i: usize, v: [u8; 16]) -> [u8; 16]
    requires { (i + 16 ≤ length u.now) × (f ≡ 0 → Unmarked u.now) }
    ensures { Masked (take 16 (drop i u.now)) v result }
{
    if f == 0 {
        return v;
    }
    masked_values(common::array_at(u, i), v)
}

// The degree of a polynomial of nine coefficients, and 0 of the zero polynomial.
fn degree(q: &[u8]) -> usize
    requires { 9 ≤ length q.now }
    ensures { EndsAt (take 9 q.now) result × (0 < result → get_or q.now result 0 ≡ 0 → ⊥) }
{
    for d in (1..9).rev() {
        if q[d] != 0 {
            return d;
        }
    }
    0
}

// Roots found so far, and those among sixteen places more: v has the values at the places x, of which the first is that of degree i.
// Degrees from 204 on are not sent.
fn list_zeros(roots: Roots, v: [u8; 16], x: [u8; 16], i: u8) -> Roots
    requires { (i ≤ 204) × (roots.count + length (zeros_from i (take (204 - i) v)) ≤ 16) }
    ensures { Listed roots.degrees roots.places roots.count (take (204 - i) v) x i result.degrees result.places result.count }
{
    let mut listed = roots;
    for l in 0..16u8 {
        let at = l as usize;
        let d = i + l;
        let within = d < 204;
        if within {
            if v[at] == 0 {
                listed.degrees[listed.count] = d;
                listed.places[listed.count] = x[at];
                listed.count += 1;
            }
        }
    }
    listed
}

// 1 for a lane that is zero, else 0.
fn is_zero(x: u8) -> u8
    ensures { (result ≡ indicator (eqb x 0)) × (result ≤ 1) }
{
    (x == 0) as u8
}

// How many of sixteen lanes are zero. Only that 0 means none is used, and stated.
fn zero_lanes(v: [u8; 16]) -> u8
    ensures { result ≡ 0 → NoZero v }
{
    let mut n: u8 = 0;
    for j in 0..16 {
        n += is_zero(v[j]);
    }
    n
}

// The degrees below 204 of the erasures and those at which the locator vanishes, sixteen places at a time (Chien search); u has the marks by degree, and
// f says how many bytes are marked. Most sixteens have no root, and are passed over. The search ends with as many roots as there can be, the erasures and
// the degree of the locator.
pub fn find_roots(u: &[u8], f: usize, q: [u8; 9]) -> Roots
    requires { (length u.now ≡ 208)
        × (f ≤ 16)
        × (f ≡ 0 → Unmarked u.now)
        × (f ≡ length (roots_of u.now one_polynomial))
        × (Zero bytes (elements q) → ⊥)
        × (length (roots_of u.now q) ≤ 16) }
    ensures { FoundRoots u.now q result.degrees result.places result.count }
{
    let d = degree(&q);
    let end = d + 1;
    let most = f + d;
    let mut found = Roots::NONE;
    let mut x = galois::lanes::first_powers();
    for turn in 0..13u8 {
        if found.count == most {
            return found;
        }
        let i = 16 * turn;
        let v = with_erasures(u, f, i as usize, galois::lanes::evaluate(&q[..end], x));
        if zero_lanes(v) != 0 {
            let r = list_zeros(found, v, x, i);
            found = r;
        }
        let y = galois::lanes::next_powers(x);
        x = y;
    }
    found
}

// The degrees of the erasures alone; count says how many they are, and without any there is nothing to search.
pub fn find_erasures(u: &[u8], count: usize) -> Roots
    requires { (length u.now ≡ 208) × (length (roots_of u.now one_polynomial) ≡ count) × (count ≤ 16) }
    ensures { FoundRoots u.now one_polynomial result.degrees result.places count }
{
    if count == 0 {
        return Roots::NONE;
    }
    find_roots(u, count, [1, 0, 0, 0, 0, 0, 0, 0, 0])
}

// A polynomial moved up by one power of x, without its highest coefficient.
fn raised(p: [u8; 16]) -> [u8; 16]
    ensures { result ≡ 0 ∷ take 15 p }
{
    let mut r = [0u8; 16];
    r[1..].copy_from_slice(&p[..15]);
    r
}

// The locator of errors and erasures: the product of x + r over their places r, without its highest coefficient, which is 1 and may not find room. Over the
// places of erasures alone it is the erasure locator.
pub fn root_product(places: &[u8]) -> [u8; 16]
    requires { length places.now ≤ 16 }
    ensures { RootProduct places.now result }
{
    let mut p = [0u8; 16];
    p[0] = 1;
    for l in (0..places.len()).rev() {
        let q = galois::lanes::sum(galois::lanes::scale(p, places[l]), raised(p));
        p = q;
    }
    p
}

// Numerators and denominators of Forney's formula. For each of sixteen places y, with q = p / (x + y): the sum of q_i S_i, and q(y).
#[derive(Clone, Copy)]
struct Fractions {
    numerators: [u8; 16],
    denominators: [u8; 16],
}

// The fractions of all places at once, from the highest coefficient of the quotients down. The polynomial p has the given degree; its highest coefficient is 1.
fn value_fractions(p: [u8; 16], degree: usize, s: [u8; 16], places: [u8; 16]) -> Fractions
    requires { degree ≤ 16 }
    ensures { FractionsAt (monic degree p) s places result.numerators result.denominators }
{
    let mut coefficients = [0u8; 16];
    let mut numerators = [0u8; 16];
    let mut denominators = [0u8; 16];
    let mut top: u8 = 1;
    for k in (0..degree).rev() {
        let c = galois::lanes::sum(galois::lanes::products(places, coefficients), [top; 16]);
        let n = galois::lanes::sum(galois::lanes::scale(c, s[k]), numerators);
        let d = galois::lanes::sum(galois::lanes::products(places, denominators), c);
        coefficients = c;
        numerators = n;
        denominators = d;
        top = p[k];
    }
    Fractions {
        numerators,
        denominators,
    }
}

// The values of the errors at the places, which are roots of p, by Forney's formula, and zeros after them. That of one error alone is the first syndrome.
pub fn error_values(p: [u8; 16], s: [u8; 16], roots: Roots) -> [u8; 16]
    requires { roots.count ≤ 16 }
    ensures { ErrorValues p s roots.places roots.count result }
{
    let mut e = [0u8; 16];
    if roots.count == 1 {
        e[0] = s[0];
        return e;
    }
    let f = value_fractions(p, roots.count, s, roots.places);
    let values = galois::lanes::products(f.numerators, galois::lanes::inverses(f.denominators));
    for l in 0..roots.count {
        e[l] = values[l];
    }
    e
}

// Takes the errors away, and counts those that are not zero.
pub fn correct(block: &mut [u8], roots: Roots, values: [u8; 16]) -> u8
    requires { (length block.old ≡ 204) × (roots.count ≤ 16) × ((l : ℕ) → l < roots.count → get_or roots.degrees l 0 < 204) }
    ensures { (result ≡ changed_in (take roots.count values))
        × (block.new ≡ corrected_by block.old (take roots.count roots.degrees) (take roots.count values)) }
{
    let mut changed: u8 = 0;
    for l in 0..roots.count {
        let at = 203 - roots.degrees[l] as usize;
        let e = values[l];
        block[at] ^= e;
        if e != 0 {
            changed += 1;
        }
    }
    changed
}
