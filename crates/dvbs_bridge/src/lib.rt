// A part for the bridge: document 02, P14. A receiver whose state is bytes that the firmware keeps, as functions for C.
// Their declarations are in include/dvbs_bridge.h, and docs/BRIDGE.md lists the layout of the state.
#![tactic(auto)]

ghost use Rattle.std.specs.Prelude.{◌≡◌, OnErr};
ghost use Rattle.receiver.specs.Receive.{Receives, taken_number};
ghost use Rattle.dvbs_bridge.specs.Calls.{fresh_number, fresh_bytes, BridgeTakes, BridgeCounts};

use answer::Refusal;
use group_sync::Outcome;
use receiver::{Receiver, receive_in_place};
use receiver_state::{COUNTS, STATE_LENGTH, read_state, write_state};
use reception_counts::outcome_number;

// Takes a block without marks. The receiver is changed in place: a Result that held it would be laid out with zeros in each call.
fn receive(receiver: &mut Receiver, block: &[u8], output: &mut [u8]) -> Result<Outcome, Refusal>
    ensures receives { Receives receiver.old block.now output.old (taken_number result) receiver.new output.new }
    ensures refused { OnErr result (receiver.new ≡ receiver.old) }
{
    let most = common::largest_of(&receiver.marks);
    let valid = receiver.in_range();
    receive_in_place(receiver, valid, most == 0, block, &[0u8; 204], output)
}

// Makes the state of a fresh receiver: the number of the answer.
#[unsafe(no_mangle)]
pub extern "C" fn dvbs_bridge_fresh(state: &mut [u8]) -> u8
    ensures { (result ≡ fresh_number state.old)
        × (state.new ≡ fresh_bytes state.old) }
{
    if state.len() != STATE_LENGTH {
        return Refusal::StateLength.number();
    }
    write_state(Receiver::new(), state);
    0
}

// Takes a block without marks: the number of the answer.
#[unsafe(no_mangle)]
pub extern "C" fn dvbs_bridge_take(state: &mut [u8], block: &[u8], output: &mut [u8]) -> u8
    ensures { BridgeTakes state.old block.now output.old result state.new output.new }
{
    if state.len() != STATE_LENGTH {
        return Refusal::StateLength.number();
    }
    let mut receiver = read_state(state);
    match receive(&mut receiver, block, output) {
        Ok(outcome) => {
            write_state(receiver, state);
            outcome_number(outcome)
        }
        Err(refusal) => refusal.number(),
    }
}

// Reads a count by its number: the number of the answer.
#[unsafe(no_mangle)]
pub extern "C" fn dvbs_bridge_count(state: &[u8], number: u8, output: &mut [u8]) -> u8
    ensures { BridgeCounts state.now number output.old result output.new }
{
    if state.len() != STATE_LENGTH {
        return Refusal::StateLength.number();
    }
    if number > 7 {
        return Refusal::UnknownCount.number();
    }
    if !read_state(state).in_range() {
        return Refusal::StateRange.number();
    }
    if output.len() < 8 {
        return Refusal::OutputLength.number();
    }
    let start = COUNTS + 8 * number as usize;
    let end = start + 8;
    common::put(&state[start..end], 0, output);
    0
}
