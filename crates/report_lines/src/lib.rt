// Lines of a report: a key with its equals sign, a number in decimal and a line feed; written and read.
// Inner: its functions may require what the crates above have tested. docs/ARCHITECTURE.md names the public surface.
#![tactic(auto)]

ghost use Rattle.std.specs.Prelude.{◌≡◌, true, ◌+◌, ◌≤◌, ◌<◌, length, is_some, unwrap_or};
ghost use Rattle.report_lines.specs.Line.{decimal, field_text, line_text, Appended};
ghost use Rattle.report_lines.specs.Reading.{found_or, DigitIs, WordIs, NumberRead, LineIs};

// Writes a number at a place of the output. Gives the place after it.
fn put_decimal(value: u64, at: usize, output: &mut [u8]) -> usize
    requires { at + 20 ≤ length output.old }
    ensures { Appended (decimal value) output.old output.new at result (at + 20) }
{
    let mut digits = [0u8; 20];
    let n = io::decimal(value, &mut digits);
    common::put(&digits[..n], at, output);
    at + n
}

// Writes a key, a number and a character after it at a place of the output. Gives the place after them.
pub fn put_field(key: &[u8], value: u64, end: u8, at: usize, output: &mut [u8]) -> usize
    requires { at + length key.now + 21 ≤ length output.old }
    ensures { Appended (field_text key.now value end) output.old output.new at result (at + length key.now + 21) }
{
    common::put(key, at, output);
    let last = put_decimal(value, at + key.len(), output);
    output[last] = end;
    last + 1
}

// The same with a line feed: a line.
pub fn put_line(key: &[u8], value: u64, at: usize, output: &mut [u8]) -> usize
    requires { at + length key.now + 21 ≤ length output.old }
    ensures { Appended (line_text key.now value) output.old output.new at result (at + length key.now + 21) }
{
    put_field(key, value, b'\n', at, output)
}

// The digit that a character is.
fn digit(c: u8) -> Option<u64>
    ensures is { DigitIs c (unwrap_or result 10) }
    ensures small { is_some result ≡ true → unwrap_or result 10 < 10 }
{
    if c < b'0' || b'9' < c {
        return None;
    }
    Some(u64::from(c - b'0'))
}

// A line that was read: its number and the place after it.
#[derive(Clone, Copy, PartialEq, Eq)]
pub struct LineRead {
    pub value: u64,
    pub end: usize,
}

// Reads a number up to a limit, and the line feed after it. It stops at the first digit that takes the number past the limit, so that no
// count of digits matters. Where the text ends with no line feed, there is none.
fn read_number(text: &[u8], at: usize, limit: u64) -> Option<LineRead>
    requires { limit < 1000000000000000000 }
    ensures { NumberRead text.now at limit (is_some result) (found_or 0 (λ l. l.value) result) (found_or 0 (λ l. l.end) result) }
{
    if text.len() <= at {
        return None;
    }
    let mut value = digit(text[at])?;
    if limit < value {
        return None;
    }
    for i in at + 1..text.len() {
        let c = text[i];
        if c == b'\n' {
            return Some(LineRead { value, end: i + 1 });
        }
        let d = digit(c)?;
        if value == 0 {
            return None;
        }
        value = value * 10 + d;
        if limit < value {
            return None;
        }
    }
    None
}

// Whether a word stands at a place of a text.
pub fn matches(text: &[u8], at: usize, word: &[u8]) -> bool
    requires { at ≤ length text.now }
    ensures { WordIs word.now text.now at result }
{
    text[at..].starts_with(word)
}

// Reads a line with this key and a number up to a limit.
pub fn read_line(text: &[u8], at: usize, key: &[u8], limit: u64) -> Option<LineRead>
    requires { (at ≤ length text.now) × (limit < 1000000000000000000) }
    ensures { LineIs key.now text.now at limit (is_some result) (found_or 0 (λ l. l.value) result) (found_or 0 (λ l. l.end) result) }
{
    if !matches(text, at, key) {
        return None;
    }
    read_number(text, at + key.len(), limit)
}
