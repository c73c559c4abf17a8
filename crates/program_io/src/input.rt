// Files that are read. What fails is said on standard error, by the name that the program gives the file.
ghost use Rattle.std.specs.Prelude.{◌≡◌, ◌<◌, ◌≤◌, false, length, pos, int_lt, IfSome};
ghost use Rattle.program_io.specs.Files.{input_ended, input_failed, StandardInput, NoInput, OpenedInput, ReadsOnce, ReadsInto, Reads, Fills};

use crate::system::{STDIN, System};
use crate::trace::{Trace, no_bytes, traced};

// Where an input comes from: its descriptor, which argument named it, 0 for none, and the place where reading began.
#[derive(Clone, Copy)]
pub struct Origin {
    fd: i32,
    argument: usize,
    start: u64,
}

// A file that is read: where it comes from, the checksum of the bytes that came, and what the last read answered: a number of bytes, 0 at the end, or
// -1 where it failed. Before the first read that is 1, and -1 where the file could not be opened.
#[derive(Clone, Copy)]
pub struct Input {
    origin: Origin,
    trace: Trace,
    last: isize,
}

// The input after a read, or after several, and how many bytes came.
#[derive(Clone, Copy)]
pub struct Filled {
    pub input: Input,
    pub length: usize,
}

// What a read answered, and how many bytes came.
#[derive(Clone, Copy)]
struct Piece {
    got: isize,
    length: usize,
}

// Reads once, into a part of the buffer that is not empty. No contract can say which bytes a read brings.
fn read_once(system: &mut System, fd: i32, buffer: &mut [u8], from: usize, end: usize) -> Piece
    requires { (from < end) × (end ≤ length buffer.old) }
    ensures { ReadsOnce from end buffer.old buffer.new result }
{
    let got = system.read(fd, &mut buffer[from..end]);
    let length = io::count(got, &buffer[from..end]);
    Piece { got, length }
}

// Whether the file that is open is set to a place.
fn set_to(system: &mut System, start: u64) -> bool {
    if start == 0 {
        return true;
    }
    system.seek(start) == Some(start)
}

// The descriptor of the file of this name, set to a place; or none, which is said. A descriptor of a standard stream is refused: that one was closed,
// and what is read or written there would be the file.
fn opened(system: &mut System, path: &[u8], start: u64) -> Option<i32>
    ensures { IfSome result (λ fd. int_lt fd (pos 3) ≡ false) }
{
    if path.len() == 0 {
        system.say(b"file name: none, or longer than 4095 bytes\n");
        return None;
    }
    let Some(fd) = system.open_read(path) else {
        system.fail(path);
        return None;
    };
    if fd < 3 {
        system.say(b"standard input, output or error is closed\n");
        return None;
    }
    if !set_to(system, start) {
        system.fail(path);
        return None;
    }
    Some(fd)
}

impl Input {
    // Standard input.
    pub fn standard() -> Input
        ensures { StandardInput result }
    {
        let origin = Origin {
            fd: STDIN,
            argument: 0,
            start: 0,
        };
        let trace = no_bytes();
        Input {
            origin,
            trace,
            last: 1,
        }
    }

    // An input that has ended from the start, for a file that may be left out.
    pub fn none() -> Input
        ensures { NoInput result }
    {
        let origin = Origin {
            fd: -1,
            argument: 0,
            start: 0,
        };
        let trace = no_bytes();
        Input {
            origin,
            trace,
            last: 0,
        }
    }

    // The file that an argument names, from a place on. One that cannot be opened or has no such place has failed.
    pub fn open(system: &mut System, argument: usize, start: u64) -> Input
        requires { start < 9223372036854775808 }
        ensures { OpenedInput argument start result }
    {
        let mut path = io::buffer();
        let n = system.arg(argument, &mut path);
        let trace = no_bytes();
        match opened(system, &path[..n], start) {
            Some(fd) => Input {
                origin: Origin {
                    fd,
                    argument,
                    start,
                },
                trace,
                last: 1,
            },
            None => Input {
                origin: Origin {
                    fd: -1,
                    argument,
                    start,
                },
                trace,
                last: -1,
            },
        }
    }

    // Whether the last read, of a buffer that was not empty, answered 0.
    pub fn ended(self) -> bool
        ensures { result ≡ input_ended self }
    {
        if self.last < 0 {
            return false;
        }
        self.last <= 0
    }

    // Whether the last read failed, or the file could not be opened.
    pub fn failed(self) -> bool
        ensures { result ≡ input_failed self }
    {
        self.last < 0
    }

    // Reads once into a part of the buffer. Nothing is read where that is empty, or the input has ended or failed.
    fn read_into(
        self,
        system: &mut System,
        name: &[u8],
        buffer: &mut [u8],
        from: usize,
        end: usize,
    ) -> Filled
        requires { (from ≤ end) × (end ≤ length buffer.old) }
        ensures { ReadsInto self from end buffer.old buffer.new result }
    {
        let origin = self.origin;
        let fd = origin.fd;
        let trace = self.trace;
        if self.last <= 0 {
            return Filled {
                input: self,
                length: 0,
            };
        }
        if from == end {
            return Filled {
                input: self,
                length: 0,
            };
        }
        let piece = read_once(system, fd, buffer, from, end);
        let last = piece.got;
        let length = piece.length;
        if last < 0 {
            system.fail(name);
        }
        let to = from + length;
        let trace = traced(trace, &buffer[from..to]);
        Filled {
            input: Input {
                origin,
                trace,
                last,
            },
            length,
        }
    }

    // Reads once, at most so many bytes. Where none came, the input has ended or failed.
    pub fn read(self, system: &mut System, name: &[u8], buffer: &mut [u8], most: usize) -> Filled
        requires { most ≤ length buffer.old }
        ensures { Reads self most buffer.new result }
    {
        self.read_into(system, name, buffer, 0, most)
    }

    // Reads until the buffer is full, the input ends or a read fails.
    pub fn fill(self, system: &mut System, name: &[u8], buffer: &mut [u8]) -> Filled
        ensures { Fills self buffer.new result }
    {
        let mut input = self;
        let mut done: usize = 0;
        // A `while`: a read brings as many bytes as it will.
        while done < buffer.len() {
            let end = buffer.len();
            let more = input.read_into(system, name, buffer, done, end);
            let n = more.length;
            input = more.input;
            if n == 0 {
                return Filled {
                    input,
                    length: done,
                };
            }
            done += n;
        }
        Filled {
            input,
            length: done,
        }
    }
}
