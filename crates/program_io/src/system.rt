// What the programs ask of the system: their arguments, the standard streams, and one file that an argument names. A number stands for each file, as
// the system has it: 0, 1 and 2 for the standard streams. No contract speaks of what it holds.
ghost use Rattle.std.specs.Prelude.{◌≡◌, length, pos};
ghost use Rattle.std.specs.Process.{exit_status};
ghost use Rattle.io.specs.Counts.{IsPrefixLen};
ghost use Rattle.program_io.specs.Moving.{Moved, Status};

use crate::error_text::ErrorText;
use std::env::FillError;
use std::fs;
use std::fs::{File, OpenOptions};
use std::io::{Error, ErrorKind, Read, Seek, SeekFrom, Write};
use std::os::fd::{AsFd, AsRawFd};
use std::process::ExitCode;
use std::rt::Env;

pub(crate) const STDIN: i32 = 0;

pub(crate) const STDOUT: i32 = 1;

pub(crate) const STDERR: i32 = 2;

// The runtime, the file that an argument names, once it is open, and why the last call that failed did.
#[derive(Drop)]
pub struct System {
    rt: HostRuntime,
    named: Option<File>,
    error: Error,
}

// Whether an error says that there is nothing to sync: what is written to is a pipe, a terminal or a device, or cannot be written at all.
fn has_no_sync(error: Error) -> bool {
    matches!(
        error.kind(),
        ErrorKind::InvalidInput | ErrorKind::Unsupported | ErrorKind::ReadOnlyFilesystem
    )
}

// The numbers of two errors: no file of that number is open, and a name that is no UTF-8, which the library opens no file by.
const EBADF: i32 = 9;

const EILSEQ: i32 = 84;

// The status that a program ends with: 0, 1 or 2.
pub fn exit_code(status: i32) -> ExitCode
    ensures zero { status ≡ pos 0 → exit_status result ≡ 0 }
    ensures one { status ≡ pos 1 → exit_status result ≡ 1 }
    ensures two { status ≡ pos 2 → exit_status result ≡ 2 }
{
    match status {
        0 => ExitCode::SUCCESS,
        1 => ExitCode::FAILURE,
        _ => ExitCode::from(2),
    }
}

impl System {
    pub fn new(rt: HostRuntime) -> System {
        System {
            rt,
            named: None,
            error: Error::from_raw_os_error(0),
        }
    }

    // Puts an argument at the front of a buffer, and gives its length, or 0 where it is missing or longer than the buffer. Of one that is longer the first
    // bytes are in the buffer then. Argument 0 is the program's name.
    pub(crate) fn arg(&mut self, i: usize, buffer: &mut [u8]) -> usize
        ensures { IsPrefixLen result buffer.new }
    {
        match self.rt.arg(i, buffer) {
            Ok(n) => n,
            Err(_) => 0,
        }
    }

    // How many arguments there are, the program's name among them.
    pub(crate) fn arg_count(&mut self) -> usize {
        let mut none = [0u8; 1];
        for i in 0..usize::MAX {
            match self.rt.arg(i, &mut none) {
                Ok(_) | Err(FillError::TooLong) => {}
                Err(FillError::NotPresent) => return i,
            }
        }
        usize::MAX
    }

    // Opens a file for reading, and gives its number. Where that fails, `fail` says why.
    pub(crate) fn open_read(&mut self, path: &[u8]) -> Option<i32> {
        let Ok(name) = std::str::from_utf8(path) else {
            self.error = Error::from_raw_os_error(EILSEQ);
            return None;
        };
        match File::open(&self.rt, name) {
            Ok(file) => {
                let fd = file.as_raw_fd();
                self.named = Some(file);
                Some(fd)
            }
            Err(e) => {
                self.error = e;
                None
            }
        }
    }

    // Sets the file that is open to a place, and gives the place. Where that fails, `fail` says why.
    pub(crate) fn seek(&mut self, to: u64) -> Option<u64> {
        let Some(file) = &mut self.named else {
            self.error = Error::from_raw_os_error(EBADF);
            return None;
        };
        match file.seek(SeekFrom::Start(to)) {
            Ok(at) => Some(at),
            Err(e) => {
                self.error = e;
                None
            }
        }
    }

    // Reads once, and gives how many bytes came, 0 at the end, or -1: the definitions in specs/Moving.antt speak of this number.
    pub(crate) fn read(&mut self, fd: i32, buffer: &mut [u8]) -> isize
        ensures { Moved (length buffer.old) result }
    {
        let got = if fd == STDIN {
            self.rt.stdin().read(buffer)
        } else {
            match &mut self.named {
                Some(file) if file.as_raw_fd() == fd => file.read(buffer),
                _ => Err(Error::from_raw_os_error(EBADF)),
            }
        };
        match got {
            Ok(n) => n as isize,
            Err(e) => {
                self.error = e;
                -1
            }
        }
    }

    // Writes once, and gives how many bytes were taken, or -1, as `read`.
    pub(crate) fn write(&mut self, fd: i32, bytes: &[u8]) -> isize
        ensures { Moved (length bytes.now) result }
    {
        let got = if fd == STDOUT {
            self.rt.stdout().write(bytes)
        } else {
            self.rt.stderr().write(bytes)
        };
        match got {
            Ok(n) => n as isize,
            Err(e) => {
                self.error = e;
                -1
            }
        }
    }

    // Writes text to standard error with as many writes as it takes. A write that fails or takes nothing ends it.
    pub(crate) fn say(&mut self, text: &[u8]) {
        let mut done: usize = 0;
        // A `while`: a write takes as many bytes as it will.
        while done < text.len() {
            let rest = &text[done..];
            let n = io::count(self.write(STDERR, rest), rest);
            if n == 0 {
                return;
            }
            done += n;
        }
    }

    // Says on standard error what failed, by this name, and why.
    pub(crate) fn fail(&mut self, name: &[u8]) {
        let error = self.error;
        let text = ErrorText::of(error);
        self.say(name);
        self.say(b": ");
        self.say(text.words());
        self.say(b"\n");
    }

    // Has the system write out what it holds of standard output, and gives 0, or -1 where that failed, as specs/Moving.antt has it. What cannot be written out so, as a pipe or a
    // terminal, has nothing to write out. The library has no call that says what closing a file answered.
    pub(crate) fn close(&mut self, fd: i32) -> i32
        ensures { Status result }
    {
        match self.sync(fd) {
            Ok(()) => 0,
            Err(e) => {
                if has_no_sync(e) {
                    return 0;
                }
                self.error = e;
                -1
            }
        }
    }

    // The same with its error, which is also that there is no such file. The library makes no file of a number, so the file is opened by its name.
    fn sync(&mut self, fd: i32) -> std::io::Result<()> {
        let stdout = self.rt.stdout();
        let stderr = self.rt.stderr();
        let (copy, path) = if fd == STDOUT {
            (stdout.as_fd().try_clone_to_owned(), "/proc/self/fd/1")
        } else {
            (stderr.as_fd().try_clone_to_owned(), "/proc/self/fd/2")
        };
        if let Err(e) = copy {
            if e.raw_os_error() == Some(EBADF) {
                return Err(e);
            }
        }
        let Ok(metadata) = fs::metadata(&self.rt, path) else {
            return Ok(());
        };
        if !metadata.is_file() {
            return Ok(());
        }
        if let Ok(file) = File::open(&self.rt, path) {
            return file.sync_all();
        }
        if let Ok(file) = OpenOptions::new().write(true).open(&self.rt, path) {
            return file.sync_all();
        }
        Ok(())
    }
}
