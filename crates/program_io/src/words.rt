// The words of the command line.
ghost use Rattle.std.specs.Prelude.{◌≡◌, ◌+◌, ◌*◌, ◌<◌, ◌≤◌, length};
ghost use Rattle.program_io.specs.Words.{same_bytes, parsed, front_part, argument_count, word_argument, word_bytes, word_is_option};

use crate::system::System;

// How many arguments the program has, beside its name.
#[derive(Clone, Copy)]
pub struct Arguments {
    count: usize,
}

impl Arguments {
    pub fn new(system: &mut System) -> Arguments {
        Arguments {
            count: system.arg_count().saturating_sub(1),
        }
    }

    pub fn count(self) -> usize
        ensures { result ≡ argument_count self }
    {
        self.count
    }
}

// An argument that is a word of at most 32 bytes. Of a longer one the first 32 are kept, and it counts as empty, as one that is not there.
// An array with a length: fixed memory, and a word may be copied.
#[derive(Clone, Copy)]
pub struct Word {
    argument: usize,
    bytes: [u8; 32],
    length: usize,
}

// What a word says: a number up to a limit, one beyond it, or none. A Result with an enum of the last two would name no more.
#[derive(Clone, Copy, PartialEq, Eq)]
pub enum Parsed {
    Number(u64),
    Large,
    Malformed,
}

impl Word {
    // The argument of this number, the first being 1.
    pub fn new(system: &mut System, argument: usize) -> Word
        ensures { word_argument result ≡ argument }
    {
        let mut bytes = [0u8; 32];
        let length = system.arg(argument, &mut bytes);
        Word {
            argument,
            bytes,
            length,
        }
    }

    // Whether the word is this text.
    pub fn is(self, text: &[u8]) -> bool
        ensures { result ≡ same_bytes (word_bytes self) text.now }
    {
        is_text(self.bytes, self.length, text)
    }

    // Whether the word begins with a dash. It is an option then, and names no file; a file of such a name is ./-NAME.
    pub fn is_option(self) -> bool
        ensures { result ≡ word_is_option self }
    {
        self.bytes[0] == b'-'
    }

    // The number in decimal digits that the word is.
    pub fn parse(self, most: u64) -> Parsed
        requires { most < 1000000000000000000 }
        ensures { result ≡ parsed (word_bytes self) most }
    {
        parse_bytes(self.bytes, self.length, most)
    }
}

fn is_text(bytes: [u8; 32], length: usize, text: &[u8]) -> bool
    ensures { result ≡ same_bytes (front_part bytes length) text.now }
{
    if 32 < length {
        return text.len() == 0;
    }
    &bytes[..length] == text
}

fn parse_bytes(bytes: [u8; 32], length: usize, most: u64) -> Parsed
    requires { most < 1000000000000000000 }
    ensures { result ≡ parsed (front_part bytes length) most }
{
    if 32 < length {
        return Parsed::Malformed;
    }
    parse_number(&bytes[..length], most)
}

// A number with a digit more. Once it is past the limit, it stays there.
fn appended(value: u64, digit: u8, most: u64) -> u64
    requires { (value ≤ 10 * most + 9) × (digit ≤ 9) × (most < 1000000000000000000) }
    ensures { (result ≤ 10 * most + 9) × ((value ≤ most → result ≡ 10 * value + digit) × (most < value → result ≡ value)) }
{
    if most < value {
        value
    } else {
        10 * value + u64::from(digit)
    }
}

fn parse_number(word: &[u8], most: u64) -> Parsed
    requires { most < 1000000000000000000 }
    ensures { result ≡ parsed word.now most }
{
    if word.len() == 0 {
        return Parsed::Malformed;
    }
    let mut value: u64 = 0;
    for &character in word {
        if character < 48 {
            return Parsed::Malformed;
        }
        if character > 57 {
            return Parsed::Malformed;
        }
        value = appended(value, character - 48, most);
    }
    if most < value {
        return Parsed::Large;
    }
    Parsed::Number(value)
}
