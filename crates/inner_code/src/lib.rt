// The inner coder: convolutional mother code, puncturing and the mapping to symbols. EN 300 421, 4.4.3 and 4.5, and EN 301 210, 4.6.3.
#![tactic(auto)]

ghost use Rattle.std.specs.Prelude.{◌≡◌, ◌<◌, IfOk};
ghost use Rattle.answer.specs.Number.{answered, given_or};
ghost use Rattle.puncturing.specs.Mode.{mode_of, qpsk_count};
ghost use Rattle.inner_code.specs.Step.{coder_in_range};
ghost use Rattle.inner_code.specs.Groups.{Grouped};
ghost use Rattle.inner_code.specs.Encode.{fresh_coder, new_number, step_number, step_coder, step_symbol, symbol_count, inner_encode_number, encode_coder, encode_count, inner_encode_output, Encodable, Encodes};

mod grouped;

use answer::Refusal;
use code_tables::Grouping;
use convolutional_code::{code_bytes, next_memory, x_of, y_of};
use grouped::code_grouped;
use puncturing::{block_count, held_count, is_sent, puncture, puncture_block};

// A block.
type Block = [u8; InnerCoder::BLOCK_LENGTH];

// The state of the coder. place is where in the puncturing pattern the next bit stands; held is an I whose Q has not come, 0 where none is held.
#[derive(Clone, Copy)]
pub struct InnerCoder {
    pub rate: u8,
    pub memory: u8,
    pub place: u8,
    pub held: u8,
}

// The coder after a bit, and the symbol that the bit completed.
#[derive(Clone, Copy)]
pub struct Stepped {
    pub coder: InnerCoder,
    pub symbol: Option<u8>,
}

// The coder after a block, and how many symbols were written.
#[derive(Clone, Copy)]
pub struct Encoded {
    pub coder: InnerCoder,
    pub count: usize,
}

impl InnerCoder {
    // The bytes of a block.
    pub const BLOCK_LENGTH: usize = 204;

    // The bits of each mode's puncturing pattern.
    pub const PATTERN_LENGTHS: [u8; code_tables::MODES] = code_tables::PATTERN_LENGTHS;

    // A fresh coder, in a mode that is sent.
    pub fn new(rate: u8) -> Result<InnerCoder, Refusal>
        ensures number { answered result ≡ new_number rate }
        ensures fresh { IfOk result (λ c. c ≡ fresh_coder rate) }
    {
        if !is_sent(rate) {
            return Err(Refusal::UnknownRate);
        }
        Ok(InnerCoder::fresh(rate))
    }

    // A fresh coder at a rate, sent or not. Where it is not, every call refuses the coder: with 5 where there is no such mode, with 6 where the
    // mode is not sent.
    pub fn fresh(rate: u8) -> InnerCoder
        ensures { result ≡ fresh_coder rate }
    {
        InnerCoder {
            rate,
            memory: 0,
            place: 0,
            held: 0,
        }
    }

    // Whether each number is in its range.
    pub fn in_range(self) -> bool
        ensures { result ≡ coder_in_range self }
    {
        let rate = self.rate;
        let place = self.place;
        if rate as usize >= code_tables::MODES {
            return false;
        }
        if self.memory >= 64 {
            return false;
        }
        let lengths = InnerCoder::PATTERN_LENGTHS;
        if place >= lengths[rate as usize] {
            return false;
        }
        self.held <= held_count(rate, place)
    }

    // How many symbols the next block gives; 0 of a coder that is out of range.
    pub fn symbol_count(self) -> usize
        ensures { result ≡ symbol_count self }
    {
        if !self.in_range() {
            return 0;
        }
        block_count(self.rate, self.place) as usize
    }

    // Codes one bit of the encoded branch. At 16QAM 3/4 the number is that of its two coded bits alone, 2 C2 + C1 with Y as C2 and X as C1:
    // `encode` puts the bits that are not coded beside them.
    pub fn step(self, bit: bool) -> Result<Stepped, Refusal>
        ensures { (answered result ≡ step_number self)
            × (given_or self (λ s. s.coder) result ≡ step_coder self bit)
            × (given_or None (λ s. s.symbol) result ≡ step_symbol self bit) }
    {
        if !self.in_range() {
            return Err(Refusal::StateRange);
        }
        let rate = self.rate;
        if !is_sent(rate) {
            return Err(Refusal::UnknownRate);
        }
        let memory = self.memory;
        let b = bit as u8;
        let next = next_memory(memory, b);
        let punctured = puncture(
            rate,
            self.place,
            self.held,
            x_of(memory, b),
            y_of(memory, b),
        );
        Ok(Stepped {
            coder: InnerCoder {
                rate,
                memory: next,
                place: punctured.place,
                held: punctured.held,
            },
            symbol: punctured.symbol,
        })
    }

    // Codes a block of 204 bytes into the output.
    pub fn encode(self, block: &[u8], output: &mut [u8]) -> Result<Encoded, Refusal>
        ensures { (answered result ≡ inner_encode_number self block.now output.old)
            × (given_or self (λ e. e.coder) result ≡ encode_coder self block.now output.old)
            × (given_or 0 (λ e. e.count) result ≡ encode_count self block.now output.old)
            × (output.new ≡ inner_encode_output self block.now output.old) }
    {
        if !self.in_range() {
            return Err(Refusal::StateRange);
        }
        if !is_sent(self.rate) {
            return Err(Refusal::UnknownRate);
        }
        let Ok(whole) = <&Block>::try_from(block) else {
            return Err(Refusal::BlockLength);
        };
        if output.len() < self.symbol_count() {
            return Err(Refusal::OutputLength);
        }
        Ok(encode_block(self, whole, output))
    }
}

// Codes a block at one of the five QPSK rates.
// That a block can be coded, `Encodable`, stays a fact: it is about the coder, the block and the room in the output together, and `encode` alone tests it.
fn encode_qpsk(coder: InnerCoder, block: &Block, output: &mut [u8]) -> Encoded
    requires { (Encodable coder block.now output.old) × (coder.rate < qpsk_count) }
    ensures { Encodes coder block.now output.old result output.new }
{
    let rate = coder.rate;
    let mut history = [0u8; 1638];
    let mut coded = [0u8; 3264];
    let next = code_bytes(coder.memory, block, &mut history, &mut coded);
    let progress = puncture_block(rate, coder.place, coder.held, &coded, output);
    Encoded {
        coder: InnerCoder {
            rate,
            memory: next,
            place: progress.place,
            held: progress.held,
        },
        count: progress.count,
    }
}

// Codes a block in a mode with uncoded bits: nothing is held, and the place stays 0.
fn encode_grouped(coder: InnerCoder, g: Grouping, block: &Block, output: &mut [u8]) -> Encoded
    requires { (Encodable coder block.now output.old) × (Grouped (mode_of coder.rate) g) }
    ensures { Encodes coder block.now output.old result output.new }
{
    let next = code_grouped(coder.memory, block, g, output);
    Encoded {
        coder: InnerCoder {
            rate: coder.rate,
            memory: next,
            place: 0,
            held: 0,
        },
        count: 8 * (204 / (g.others + 1)),
    }
}

// Codes a block into an output that is long enough.
fn encode_block(coder: InnerCoder, block: &Block, output: &mut [u8]) -> Encoded
    requires { Encodable coder block.now output.old }
    ensures { Encodes coder block.now output.old result output.new }
{
    if (coder.rate as usize) < code_tables::QPSK_MODES {
        return encode_qpsk(coder, block, output);
    }
    encode_grouped(coder, code_tables::GROUPING_16QAM, block, output)
}
