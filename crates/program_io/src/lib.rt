// A program's files, arguments and standard streams, as values whose fields no other crate can name: a value is a fresh one, or what a read or a
// write of this crate left in it. So no program can make up what a read or a write answered, and no other crate calls the system.
// Inner: its functions may require what the crates above have tested. docs/ARCHITECTURE.md names the public surface.
#![tactic(auto)]

mod calls;
mod error_text;
mod input;
mod output;
mod system;
mod trace;
mod words;

pub use calls::{
    Answered, Asked, Ended, MarkedEnded, answer, asked_for, help, named_input, version, wrong,
};
pub use input::{Filled, Input};
pub use output::Output;
pub use system::{System, exit_code};
pub use words::{Arguments, Parsed, Word};
