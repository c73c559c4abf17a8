// Files that are written: standard output and standard error. What fails is said on standard error, by the name that the program gives what it writes;
// that is not among the bytes of the checksum.
ghost use Rattle.std.specs.Prelude.{◌≡◌, ◌≤◌, length, pos};
ghost use Rattle.program_io.specs.Files.{output_failed, FreshOutput, Loses, WrittenBy, WritesFrom, Writes, ClosedBy, Closes};

use crate::system::{STDERR, STDOUT, System};
use crate::trace::{Trace, no_bytes, traced};

// An output stays a value where a write failed, and its flags are asked for: no Result.
// A file that is written: its descriptor, the checksum of the bytes that it took, whether a write failed or took too little, or closing it failed, and
// whether it is closed.
#[derive(Clone, Copy)]
pub struct Output {
    fd: i32,
    trace: Trace,
    failed: bool,
    closed: bool,
}

// The output after a write, and how many bytes it took.
#[derive(Clone, Copy)]
struct Put {
    output: Output,
    length: usize,
}

// Says that a write took a part only. No error number tells why.
fn say_cut_off(system: &mut System, name: &[u8]) {
    system.say(name);
    system.say(b": not written whole\n");
}

impl Output {
    // Standard output.
    pub fn standard() -> Output
        ensures { FreshOutput (pos 1) result }
    {
        let trace = no_bytes();
        Output {
            fd: STDOUT,
            trace,
            failed: false,
            closed: false,
        }
    }

    // Standard error.
    pub fn errors() -> Output
        ensures { FreshOutput (pos 2) result }
    {
        let trace = no_bytes();
        Output {
            fd: STDERR,
            trace,
            failed: false,
            closed: false,
        }
    }

    // Whether a write or the closing failed.
    pub fn failed(self) -> bool
        ensures { result ≡ output_failed self }
    {
        self.failed
    }

    // The output as one that failed.
    fn lost(self) -> Output
        ensures { Loses self result }
    {
        let trace = self.trace;
        Output {
            fd: self.fd,
            trace,
            failed: true,
            closed: self.closed,
        }
    }

    // The output after a write of the bytes from a place on that was answered so: a number of bytes, and below 0 it failed. The checksum goes on over those
    // that were taken.
    fn written_by(self, bytes: &[u8], from: usize, got: isize) -> Put
        requires { from ≤ length bytes.now }
        ensures { WrittenBy self bytes.now from got result }
    {
        let fd = self.fd;
        let trace = self.trace;
        let closed = self.closed;
        if got < 0 {
            return Put {
                output: self.lost(),
                length: 0,
            };
        }
        let length = io::count(got, &bytes[from..]);
        let to = from + length;
        let trace = traced(trace, &bytes[from..to]);
        Put {
            output: Output {
                fd,
                trace,
                failed: false,
                closed,
            },
            length,
        }
    }

    // Writes once, the bytes from a place on. An output that is closed takes none.
    fn write_from(self, system: &mut System, name: &[u8], bytes: &[u8], from: usize) -> Put
        requires { from ≤ length bytes.now }
        ensures { WritesFrom self bytes.now from result }
    {
        let fd = self.fd;
        if self.closed {
            return Put {
                output: self.lost(),
                length: 0,
            };
        }
        let got = system.write(fd, &bytes[from..]);
        if got < 0 {
            system.fail(name);
        }
        self.written_by(bytes, from, got)
    }

    // Writes bytes with as many writes as it takes. A write that fails or takes nothing ends it.
    pub fn write(self, system: &mut System, name: &[u8], bytes: &[u8]) -> Output
        ensures { Writes self bytes.now result }
    {
        let mut output = self;
        let mut done: usize = 0;
        if output.failed {
            return output;
        }
        // A `while`: a write takes as many bytes as it will.
        while done < bytes.len() {
            let put = output.write_from(system, name, bytes, done);
            let n = put.length;
            output = put.output;
            if output.failed {
                return output;
            }
            if n == 0 {
                say_cut_off(system, name);
                return output.lost();
            }
            done += n;
        }
        output
    }

    // Writes a text with a single write. Where that does not take all of it, what stands in the output lacks its last line feed.
    pub fn write_text(self, system: &mut System, name: &[u8], text: &[u8]) -> Output
        ensures { Writes self text.now result }
    {
        if self.failed {
            return self;
        }
        let put = self.write_from(system, name, text, 0);
        let n = put.length;
        let output = put.output;
        if output.failed {
            return output;
        }
        let cut = n < text.len();
        if cut {
            say_cut_off(system, name);
            return output.lost();
        }
        output
    }

    // The output after a closing that was answered so: below 0 it failed.
    fn closed_by(self, answer: i32) -> Output
        ensures { ClosedBy self answer result }
    {
        let fd = self.fd;
        let trace = self.trace;
        if answer < 0 {
            return self.lost();
        }
        Output {
            fd,
            trace,
            failed: false,
            closed: true,
        }
    }

    // Closes the output, where nothing failed. A file system may tell only then that what was written is lost.
    pub fn close(self, system: &mut System, name: &[u8]) -> Output
        ensures { Closes self result }
    {
        let fd = self.fd;
        if self.failed {
            return self;
        }
        if self.closed {
            return self;
        }
        let answer = system.close(fd);
        if answer < 0 {
            system.fail(name);
        }
        self.closed_by(answer)
    }
}
