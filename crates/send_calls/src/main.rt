// send_calls RATE < inputs > answers
// Gives a fresh sender one input after another, for the comparison with reference/. On standard input each is a byte with its length, and then
// so many bytes. For each come the number of the answer, the number of symbols in two bytes, the lower first, and the symbols.
#![tactic(auto)]

ghost use Rattle.std.specs.Prelude.{◌<◌, ◌≤◌, length};

use sender::Sender;
use std::io::{Read, Write};
use std::rt::Env;

// Writes bytes to standard output. What fails is not told.
fn write_all(rt: HostRuntime, bytes: &[u8]) {
    let _ = rt.stdout().write_all(bytes);
}

// The sender after a call, and whether there was an input for it.
#[derive(Clone, Copy)]
struct Called {
    sender: Sender,
    more: bool,
}

fn write_sent(rt: HostRuntime, answer: u8, symbols: &[u8]) {
    let count = symbols.len();
    let head = [answer, (count % 256) as u8, (count / 256 % 256) as u8];
    write_all(rt, &head);
    write_all(rt, symbols);
}

// A call with an input.
fn call(rt: HostRuntime, sender: Sender, input: &[u8], output: &mut [u8]) -> Called {
    match sender.send(input, output) {
        Ok(sent) => {
            write_sent(rt, sent.number(), &output[..sent.count]);
            Called {
                sender: sent.sender,
                more: true,
            }
        }
        Err(refusal) => {
            write_sent(rt, refusal.number(), &[]);
            Called { sender, more: true }
        }
    }
}

// Reads an input of so many bytes, and makes a call with it.
fn call_input(
    rt: HostRuntime,
    sender: Sender,
    size: usize,
    bytes: &mut [u8],
    output: &mut [u8],
) -> Called
    requires { size ≤ length bytes.old }
{
    if rt.stdin().read_exact(&mut bytes[..size]).is_err() {
        return Called {
            sender,
            more: false,
        };
    }
    call(rt, sender, &bytes[..size], output)
}

// The same, with its length before it.
fn call_next(rt: HostRuntime, sender: Sender) -> Called {
    let mut head = [0u8; 1];
    let mut bytes = [0u8; 256];
    let mut output = [0u8; 1632];
    if rt.stdin().read_exact(&mut head).is_err() {
        return Called {
            sender,
            more: false,
        };
    }
    call_input(rt, sender, wide(head[0]), &mut bytes, &mut output)
}

fn wide(length: u8) -> usize
    ensures { result < 256 }
{
    length as usize
}

// A proved loop has to end, and nothing says that an input does: the loop has more turns than any run uses up.
fn call_all(rt: HostRuntime, sender: Sender) {
    let mut sender = sender;
    for _ in 0..u64::MAX {
        let called = call_next(rt, sender);
        sender = called.sender;
        if !called.more {
            return;
        }
    }
}

fn main(rt: HostRuntime) {
    let mut word = [0u8; 1];
    let Ok(1) = rt.arg(1, &mut word) else {
        return;
    };
    let digit = word[0];
    if digit < b'0' {
        return;
    }
    let Ok(sender) = Sender::new(digit - b'0') else {
        return;
    };
    call_all(rt, sender);
}
