// What the library says of an error, without the number that it writes behind it.
ghost use Rattle.std.specs.Prelude.{◌≤◌, length};

use std::fmt;
use std::fmt::Write;
use std::io::Error;

// The text of an error, at the front of a buffer: fixed memory.
#[derive(Drop)]
pub struct ErrorText {
    bytes: [u8; 256],
    length: usize,
}

impl fmt::Write for ErrorText {
    // What the buffer has no room for is left out.
    fn write_str(&mut self, text: &str) -> fmt::Result {
        for byte in text.as_bytes() {
            if self.length < 256 {
                self.bytes[self.length] = *byte;
                self.length += 1;
            }
        }
        Ok(())
    }
}

// Where the number of an error begins, which the library writes behind its text, or the end.
fn text_end(bytes: &[u8]) -> usize
    ensures { result ≤ length bytes.now }
{
    for i in 0..bytes.len() {
        if bytes[i..].starts_with(b" (os error ") {
            return i;
        }
    }
    bytes.len()
}

impl ErrorText {
    pub(crate) fn of(error: Error) -> ErrorText {
        let mut text = ErrorText {
            bytes: [0u8; 256],
            length: 0,
        };
        let _ = text.write(error);
        text
    }

    // The text.
    pub(crate) fn words(&self) -> &[u8] {
        let mut end: usize = 0;
        if self.length <= 256 {
            end = text_end(&self.bytes[..self.length]);
        }
        &self.bytes[..end]
    }
}
