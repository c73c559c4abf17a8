// A sender whose state is bytes that the firmware keeps, as functions for C.
// Their declarations are in include/dvbs.h, and docs/STATES.md lists the layout of the state.
#![tactic(auto)]

ghost use Rattle.std.specs.Prelude.{◌≡◌};
ghost use Rattle.dvbs_sender.specs.Calls.{fresh_number, fresh_bytes, SendsPacket};

use answer::Refusal;
use sender::Sender;

mod layout;

use layout::{STATE_LENGTH, read_state, write_state};

// Makes the state of a fresh sender in a mode: the number of the answer.
#[unsafe(no_mangle)]
pub extern "C" fn dvbs_sender_fresh(state: &mut [u8], mode: u8) -> u8
    ensures { (result ≡ fresh_number state.old mode)
        × (state.new ≡ fresh_bytes state.old mode) }
{
    if state.len() != STATE_LENGTH {
        return Refusal::StateLength.number();
    }
    match Sender::new(mode) {
        Ok(sender) => {
            write_state(sender, state);
            0
        }
        Err(refusal) => refusal.number(),
    }
}

// Sends a packet, or a null packet for no bytes: the number of symbols written. The first byte of answer has the number of the answer.
#[unsafe(no_mangle)]
pub extern "C" fn dvbs_sender_send(
    state: &mut [u8],
    packet: &[u8],
    output: &mut [u8],
    answer: &mut [u8],
) -> u64
    ensures { SendsPacket state.old packet.now output.old answer.old result state.new output.new answer.new }
{
    if answer.len() < 1 {
        return 0;
    }
    if state.len() != STATE_LENGTH {
        answer[0] = Refusal::StateLength.number();
        return 0;
    }
    match read_state(state).send(packet, output) {
        Ok(sent) => {
            answer[0] = sent.number();
            write_state(sent.sender, state);
            sent.count as u64
        }
        Err(refusal) => {
            answer[0] = refusal.number();
            0
        }
    }
}
