// A whole list of packets, sent with a fresh sender.
ghost use Rattle.std.specs.Prelude.{◌≡◌, ◌++◌, ◌*◌, ◌%◌, ◌<◌, ltb, length, drop, IsOk};
ghost use Rattle.common.specs.Choice.{pick};
ghost use Rattle.common.specs.Lists.{chunks_of};
ghost use Rattle.answer.specs.Number.{given_or};
ghost use Rattle.puncturing.specs.Mode.{block_bits, mode_count};
ghost use Rattle.puncturing.specs.Step.{pattern_length, symbols_in};
ghost use Rattle.sender_stream.specs.Run.{synced, run_symbols, Sendable, SendsRun, run_answer};

use answer::Refusal;
use inner_code::InnerCoder;
use puncturing::is_sent;
use sender::Sender;

// The bits of a coded block. At 16QAM a third of them is coded, and the place in the pattern is 0 all the same.
const BLOCK_BITS: u16 = 1632;

// How many symbols were written, and whether a null packet was sent in place of a packet.
#[derive(Clone, Copy)]
pub struct SentRun {
    pub count: usize,
    pub replaced: bool,
}

impl SentRun {
    // The number of the answer: 15 where a null packet was sent, else 0.
    pub fn number(self) -> u8
        ensures { result ≡ pick self.replaced 15 0 }
    {
        if self.replaced { 15 } else { 0 }
    }
}

// Whether each packet begins with the sync byte.
fn is_synced(packets: &[u8]) -> bool
    requires { length packets.now % 188 ≡ 0 }
    ensures { result ≡ synced (chunks_of 188 packets.now) }
{
    for k in 0..packets.len() / Sender::PACKET_LENGTH {
        if packets[Sender::PACKET_LENGTH * k] != 0x47 {
            return false;
        }
    }
    true
}

// Whether there is too little space for the symbols of so many packets, of which the first begins at a place of the mode's pattern.
// A part, with a requires: `send_run` and those who send piece by piece make the test with it.
pub fn is_short(rate: u8, start: u8, packets: usize, space: usize) -> bool
    requires { (rate < mode_count) × (start < pattern_length rate) }
    ensures { result ≡ ltb space (symbols_in rate start (block_bits rate * packets)) }
{
    let lengths = InnerCoder::PATTERN_LENGTHS;
    let length = lengths[rate as usize] as u16;
    let mut place = start;
    let mut left = space;
    for _ in 0..packets {
        let coder = InnerCoder {
            rate,
            memory: 0,
            place,
            held: 0,
        };
        let needed = coder.symbol_count();
        if left < needed {
            return true;
        }
        left -= needed;
        place = ((place as u16 + BLOCK_BITS) % length) as u8;
    }
    false
}

// Sends the packets one after the other. Gives the number of symbols.
fn send_packets(rate: u8, packets: &[u8], output: &mut [u8]) -> Result<usize, Refusal>
    requires { Sendable rate packets.now output.old }
    ensures { IsOk result
        × (given_or 0 (λ n. n) result ≡ length (run_symbols rate packets.now))
        × (output.new ≡ run_symbols rate packets.now ++ drop (length (run_symbols rate packets.now)) output.old) }
{
    let mut sender = Sender::fresh(rate);
    let mut count: usize = 0;
    for k in 0..packets.len() / Sender::PACKET_LENGTH {
        let at = Sender::PACKET_LENGTH * k;
        let end = at + Sender::PACKET_LENGTH;
        let sent = sender.send(&packets[at..end], &mut output[count..])?;
        sender = sent.sender;
        count += sent.count;
    }
    Ok(count)
}

// Sends a whole list of packets with a fresh sender: writes the symbols that EN 300 421 gives for them, with a null packet
// in place of each that does not begin with the sync byte. Nothing is written unless all of them can be sent.
pub fn send_run(rate: u8, packets: &[u8], output: &mut [u8]) -> Result<SentRun, Refusal>
    ensures { SendsRun rate packets.now output.old (run_answer result) (given_or 0 (λ r. r.count) result) output.new }
{
    if !is_sent(rate) {
        return Err(Refusal::UnknownRate);
    }
    if packets.len() % Sender::PACKET_LENGTH != 0 {
        return Err(Refusal::PacketLength);
    }
    if is_short(rate, 0, packets.len() / Sender::PACKET_LENGTH, output.len()) {
        return Err(Refusal::OutputLength);
    }
    let count = send_packets(rate, packets, output)?;
    let replaced = !is_synced(packets);
    Ok(SentRun { count, replaced })
}
