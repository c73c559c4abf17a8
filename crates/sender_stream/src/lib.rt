// Sending in progress: transport packets from pieces of any length. The bytes of a packet that is not whole yet are held until the rest of it comes.
#![tactic(auto)]

ghost use Rattle.std.specs.Prelude.{◌≡◌, ◌++◌, ◌+◌, ◌/◌, ◌<◌, length, take, IfOk, IfErr};
ghost use Rattle.answer.specs.Number.{number_of, answered, given_or};
ghost use Rattle.puncturing.specs.Mode.{mode_of};
ghost use Rattle.inner_code.specs.Encode.{new_number};
ghost use Rattle.sender.specs.Send.{Sends, sent_answer};
ghost use Rattle.sender_stream.specs.Feed.{fresh_sender_stream, sender_stream_in_range, OutputsFit, FeedsAll, FeedsSender};

use answer::Refusal;
use sender::{Sender, Sent};

pub mod run;

// The sender, and the bytes of a packet that is not whole yet: so many of pending, which has zeros after them, since no memory is
// taken for them.
#[derive(Clone, Copy)]
pub struct SenderStream {
    pub sender: Sender,
    pub pending: [u8; Sender::PACKET_LENGTH],
    pub held: usize,
}

// How many symbols were written, how many packets were sent, each with its answer, and the sending after them.
#[derive(Clone, Copy)]
pub struct SenderFed {
    pub count: usize,
    pub packets: usize,
    pub sending: SenderStream,
}

impl SenderStream {
    // A fresh sending, in a mode that is sent.
    pub fn new(rate: u8) -> Result<SenderStream, Refusal>
        ensures number { answered result ≡ new_number rate }
        ensures fresh { IfOk result (λ w. w ≡ fresh_sender_stream rate) }
    {
        Sender::new(rate)?;
        Ok(SenderStream::fresh(rate))
    }

    // A fresh sending at a rate, sent or not. Where it is not, every call refuses the sending, as it does a sender.
    pub fn fresh(rate: u8) -> SenderStream
        ensures { result ≡ fresh_sender_stream rate }
    {
        SenderStream {
            sender: Sender::fresh(rate),
            pending: [0u8; Sender::PACKET_LENGTH],
            held: 0,
        }
    }

    // Whether each number is in its range.
    pub fn in_range(self) -> bool
        ensures { result ≡ sender_stream_in_range self }
    {
        if !self.sender.in_range() {
            return false;
        }
        self.held < Sender::PACKET_LENGTH
    }

    // Sends the packets that are whole with a piece: writes their symbols, and a byte with the number of its answer for each, 0 or 15.
    pub fn feed(
        self,
        piece: &[u8],
        output: &mut [u8],
        answers: &mut [u8],
    ) -> Result<SenderFed, Refusal>
        ensures { FeedsSender self piece.now output.old answers.old
            (answered result) (given_or 0 (λ f. f.count) result) (given_or 0 (λ f. f.packets) result) (given_or self (λ f. f.sending) result)
            output.new answers.new }
    {
        if !self.in_range() {
            return Err(Refusal::StateRange);
        }
        let coder = self.sender.coder;
        let rate = coder.rate;
        if !puncturing::is_sent(rate) {
            return Err(Refusal::UnknownRate);
        }
        let packets = whole_count(self.held, piece.len());
        if crate::run::is_short(rate, coder.place, packets, output.len()) {
            return Err(Refusal::OutputLength);
        }
        if answers.len() < packets {
            return Err(Refusal::OutputLength);
        }
        send_whole(self, piece, output, answers)
    }
}

// How many packets are whole, with so many bytes held and so many that come.
fn whole_count(held: usize, came: usize) -> usize
    requires { held < 188 }
    ensures { result ≡ (held + came) / 188 }
{
    came / Sender::PACKET_LENGTH + (held + came % Sender::PACKET_LENGTH) / Sender::PACKET_LENGTH
}

// Sends the packet that the bytes held and more make.
fn send_joined(
    sender: Sender,
    pending: [u8; Sender::PACKET_LENGTH],
    held: usize,
    more: &[u8],
    output: &mut [u8],
) -> Result<Sent, Refusal>
    requires { held + length more.now ≡ 188 }
    ensures sends { Sends mode_of sender (take held pending ++ more.now) output.old
        (sent_answer result) (given_or 0 (λ s. s.count) result) (given_or sender (λ s. s.sender) result) output.new }
    ensures refused { IfErr result (λ refusal. number_of refusal < 15) }
{
    let packet: [u8; Sender::PACKET_LENGTH] = common::joined(&pending[..held], more);
    sender.send(&packet, output)
}

// Sends the packets that are whole with a piece, and holds the bytes after them, with a sending that is in range and room enough.
fn send_whole(
    sending: SenderStream,
    piece: &[u8],
    output: &mut [u8],
    answers: &mut [u8],
) -> Result<SenderFed, Refusal>
    requires { OutputsFit sending piece.now output.old answers.old }
    ensures { FeedsAll sending piece.now output.old answers.old
        (answered result) (given_or 0 (λ f. f.count) result) (given_or 0 (λ f. f.packets) result) (given_or sending (λ f. f.sending) result)
        output.new answers.new }
{
    let pending = sending.pending;
    let mut sender = sending.sender;
    let mut held = sending.held;
    let mut at: usize = 0;
    let mut count: usize = 0;
    let mut packets: usize = 0;
    // A `while`: the first packet takes what is missing of it, the others 188 bytes.
    while piece.len() - at >= Sender::PACKET_LENGTH - held {
        let end = at + (Sender::PACKET_LENGTH - held);
        let sent = send_joined(sender, pending, held, &piece[at..end], &mut output[count..])?;
        answers[packets] = sent.number();
        sender = sent.sender;
        count += sent.count;
        packets += 1;
        held = 0;
        at = end;
    }
    Ok(SenderFed {
        count,
        packets,
        sending: SenderStream {
            sender,
            pending: common::joined(&pending[..held], &piece[at..]),
            held: held + (piece.len() - at),
        },
    })
}
