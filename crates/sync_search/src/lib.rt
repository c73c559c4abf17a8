// Where blocks begin in a list of bits, by their sync bytes.
// Inner: its functions may require what the crates above have tested. docs/ARCHITECTURE.md names the public surface.
#![tactic(auto)]

ghost use Rattle.std.specs.Prelude.{◌≡◌, ◌+◌, ◌≤◌, length};
ghost use Rattle.sync_search.specs.Sync.{byte_at, is_at, count_at, sync_at, FirstSync};

// The byte that eight bits from a place on make, the first on top. A bit is the lowest of its byte.
pub fn byte_at(bits: &[u8], at: usize) -> u8
    requires { at + 8 ≤ length bits.now }
    ensures { result ≡ byte_at bits.now at }
{
    128 * (bits[at] % 2)
        + 64 * (bits[at + 1] % 2)
        + 32 * (bits[at + 2] % 2)
        + 16 * (bits[at + 3] % 2)
        + 8 * (bits[at + 4] % 2)
        + 4 * (bits[at + 5] % 2)
        + 2 * (bits[at + 6] % 2)
        + bits[at + 7] % 2
}

// 1 where the byte at a place is a value, else 0.
pub fn is_at(bits: &[u8], value: u8, at: usize) -> usize
    requires { at + 8 ≤ length bits.now }
    ensures { (result ≡ is_at bits.now value at) × (result ≤ 1) }
{
    (byte_at(bits, at) == value) as usize
}

// How many of five bytes, a block apart, are a value.
fn count_at(bits: &[u8], value: u8, at: usize) -> usize
    requires { at + 6536 ≤ length bits.now }
    ensures { (result ≡ count_at bits.now value at) × (result ≤ 5) }
{
    is_at(bits, value, at)
        + is_at(bits, value, at + 1632)
        + is_at(bits, value, at + 3264)
        + is_at(bits, value, at + 4896)
        + is_at(bits, value, at + 6528)
}

// Whether five sync bytes stand a block apart from a place on, at most one of them not as the others.
fn sync_at(bits: &[u8], at: usize) -> bool
    requires { at + 6536 ≤ length bits.now }
    ensures { result ≡ sync_at bits.now at }
{
    let plain = count_at(bits, 0x47, at);
    let inverted = count_at(bits, 0xB8, at);
    plain + inverted == 5 && (plain < 2 || inverted < 2)
}

// The first place from a place on at which five sync bytes stand a block apart.
pub fn find_sync(bits: &[u8], from: usize) -> Option<usize>
    ensures { FirstSync bits.now from result }
{
    if bits.len() < 6536 {
        return None;
    }
    for at in from..bits.len() - 6535 {
        if sync_at(bits, at) {
            return Some(at);
        }
    }
    None
}
