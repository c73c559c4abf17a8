// Shared helpers: lemmas, copying bytes, the bytes of a number, the smaller of two, the maximum of a slice.
// Inner: its functions may require what the crates above have tested. docs/ARCHITECTURE.md names the public surface.
#![tactic(auto)]

ghost use Rattle.std.specs.Prelude.{◌≡◌, ◌++◌, ℕ, ◌+◌, ◌<◌, ◌≤◌, length, get_or, take, drop};
ghost use Rattle.common.specs.Bytes.{byte_at};
ghost use Rattle.common.specs.Lists.{largest, padded};

// Writes a list into the output, from a place on.
pub fn put(list: &[u8], at: usize, output: &mut [u8])
    requires { at + length list.now ≤ length output.old }
    ensures { output.new ≡ take at output.old ++ list.now ++ drop (at + length list.now) output.old }
{
    let end = at + list.len();
    output[at..end].copy_from_slice(list);
}

// An array, each element made by f of its place.
pub fn array_of<const N: usize, F: Fn(usize) -> u8>(f: F) -> [u8; N]
    requires { (i : ℕ) → i < N → F.pre f i }
    ensures { (i : ℕ) → i < N → F.post f i (get_or result i 0) }
{
    let mut array = [0u8; N];
    for i in 0..N {
        array[i] = f(i);
    }
    array
}

// So many bytes of a list, from a place on.
pub fn array_at<const N: usize>(list: &[u8], at: usize) -> [u8; N]
    requires { at + N ≤ length list.now }
    ensures { result ≡ take N (drop at list.now) }
{
    let mut array = [0u8; N];
    let end = at + N;
    array.copy_from_slice(&list[at..end]);
    array
}

// Two lists, one behind the other, at the front of an array, and zeros behind them.
pub fn joined<const N: usize>(front: &[u8], behind: &[u8]) -> [u8; N]
    requires { length front.now + length behind.now ≤ N }
    ensures { result ≡ padded N (front.now ++ behind.now) }
{
    let mut array = [0u8; N];
    put(front, 0, &mut array);
    put(behind, front.len(), &mut array);
    array
}

// Byte k of a number, the lowest being byte 0.
pub fn byte_at(n: u64, k: usize) -> u8
    ensures { result ≡ byte_at k n }
{
    let mut left = n;
    for _ in 0..k {
        left /= 256;
    }
    (left % 256) as u8
}

// The largest of some bytes, and 0 of none. It takes no branch on a value.
pub fn largest_of(bytes: &[u8]) -> u8
    ensures { result ≡ largest bytes.now }
{
    let mut most: u8 = 0;
    for byte in bytes {
        most = most.max(*byte);
    }
    most
}
