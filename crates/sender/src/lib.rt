// The sending chain: randomizing, outer code, interleaving and inner code, packet by packet. EN 300 421, 4.4 and 4.5, and for 16QAM EN 301 210, 4.6.
#![tactic(auto)]

ghost use Rattle.std.specs.Prelude.{◌≡◌, true, ◌++◌, ◌≤◌, ◌<◌, length, get_or, drop, IsOk, IfOk, IfErr};
ghost use Rattle.common.specs.Choice.{pick};
ghost use Rattle.answer.specs.Number.{number_of, answered, given_or};
ghost use Rattle.puncturing.specs.Mode.{mode_of};
ghost use Rattle.inner_code.specs.Encode.{new_number};
ghost use Rattle.sender.specs.Input.{is_input, is_synced, null_packet};
ghost use Rattle.sender.specs.Send.{fresh_sender, sender_in_range, sent_symbols, sent_count, sender_after, is_sent, Sends, sent_answer};

use answer::Refusal;
use inner_code::InnerCoder;
use interleaver::Interleaver;

// The state between two packets. Each stage keeps its own numbers, so nothing is held twice: the rate is the inner coder's,
// and the place of the next packet in its group of eight is the sender's, since randomizing takes it with each packet.
#[derive(Clone, Copy)]
pub struct Sender {
    pub place: u8,
    pub interleaver: Interleaver,
    pub coder: InnerCoder,
}

// How many symbols were written, whether a null packet was sent in place of the input, and the sender after it.
#[derive(Clone, Copy)]
pub struct Sent {
    pub count: usize,
    pub replaced: bool,
    pub sender: Sender,
}

impl Sent {
    // The number of the answer: 15 where a null packet was sent, else 0.
    pub fn number(self) -> u8
        ensures { result ≡ pick self.replaced 15 0 }
    {
        if self.replaced { 15 } else { 0 }
    }
}

impl Sender {
    // The bytes of a transport packet.
    pub const PACKET_LENGTH: usize = 188;

    // The bytes of a coded block.
    pub const BLOCK_LENGTH: usize = 204;

    // The packets of a group.
    pub const GROUP_LENGTH: u8 = 8;

    // A fresh sender, in a mode that is sent.
    pub fn new(rate: u8) -> Result<Sender, Refusal>
        ensures number { answered result ≡ new_number rate }
        ensures fresh { IfOk result (λ s. s ≡ fresh_sender rate) }
    {
        if !puncturing::is_sent(rate) {
            return Err(Refusal::UnknownRate);
        }
        Ok(Sender::fresh(rate))
    }

    // A fresh sender at a rate, sent or not. Where it is not, every call refuses the sender: with 5 where there is no such mode, with 6 where the
    // mode is not sent.
    pub fn fresh(rate: u8) -> Sender
        ensures { result ≡ fresh_sender rate }
    {
        Sender {
            place: 0,
            interleaver: Interleaver::new(),
            coder: InnerCoder::fresh(rate),
        }
    }

    // Whether each number is in its range.
    pub fn in_range(self) -> bool
        ensures { result ≡ sender_in_range mode_of self }
    {
        self.place <= 7 && self.interleaver.in_range() && self.coder.in_range()
    }

    // Sends a packet: writes its symbols. For no bytes, and for 188 that do not begin with the sync byte, a null packet is sent.
    pub fn send(self, input: &[u8], output: &mut [u8]) -> Result<Sent, Refusal>
        ensures sends { Sends mode_of self input.now output.old
            (sent_answer result) (given_or 0 (λ s. s.count) result) (given_or self (λ s. s.sender) result) output.new }
        ensures refused { IfErr result (λ refusal. number_of refusal < 15) }
    {
        if !self.in_range() {
            return Err(Refusal::StateRange);
        }
        if !puncturing::is_sent(self.coder.rate) {
            return Err(Refusal::UnknownRate);
        }
        if !is_input(input) {
            return Err(Refusal::PacketLength);
        }
        if output.len() < self.coder.symbol_count() {
            return Err(Refusal::OutputLength);
        }
        if is_synced(input) {
            return transmit(self, input, false, output);
        }
        let null = null_packet();
        transmit(self, &null, true, output)
    }
}

// Whether an input is no bytes or those of a packet.
fn is_input(input: &[u8]) -> bool
    ensures { result ≡ is_input input.now }
{
    input.len() == 0 || input.len() == Sender::PACKET_LENGTH
}

// Whether it begins with the sync byte. False for an empty input.
fn is_synced(input: &[u8]) -> bool
    ensures { result ≡ is_synced input.now }
{
    input.len() > 0 && input[0] == 0x47
}

// The null packet: packet identifier 1FFF hex, a payload of bytes FF.
fn null_packet() -> [u8; Sender::PACKET_LENGTH]
    ensures { result ≡ null_packet }
{
    let mut packet = [0xFFu8; Sender::PACKET_LENGTH];
    packet[0] = 0x47;
    packet[1] = 0x1F;
    packet[3] = 0x10;
    packet
}

// Sends a packet with a sender that is in range, in a mode that is sent, and room enough. No stage refuses it.
fn transmit(
    sender: Sender,
    packet: &[u8],
    replaced: bool,
    output: &mut [u8],
) -> Result<Sent, Refusal>
    requires { (sender_in_range mode_of sender ≡ true) × (is_sent mode_of sender ≡ true) × (length packet.now ≡ 188) × (get_or packet.now 0 0 ≡ 0x47) × (sent_count mode_of sender ≤ length output.old) }
    ensures { IsOk result
        × (sent_answer result ≡ pick replaced 15 0)
        × (given_or 0 (λ s. s.count) result ≡ sent_count mode_of sender)
        × (given_or sender (λ s. s.sender) result ≡ sender_after mode_of sender packet.now)
        × (output.new ≡ sent_symbols mode_of sender packet.now ++ drop (sent_count mode_of sender) output.old) }
{
    let place = sender.place;
    let mut randomized = [0u8; Sender::PACKET_LENGTH];
    randomizer::randomize(place, packet, &mut randomized)?;
    let mut coded = [0u8; Sender::BLOCK_LENGTH];
    reed_solomon::encode(&randomized, &mut coded)?;
    let mut block = [0u8; Sender::BLOCK_LENGTH];
    let interleaver = sender.interleaver.interleave(&coded, &mut block)?;
    let encoded = sender.coder.encode(&block, output)?;
    Ok(Sent {
        count: encoded.count,
        replaced,
        sender: Sender {
            place: (place + 1) % Sender::GROUP_LENGTH,
            interleaver,
            coder: encoded.coder,
        },
    })
}
