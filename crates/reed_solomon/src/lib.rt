// The outer code: Reed-Solomon RS(204,188), EN 300 421, 4.4.2.
#![tactic(auto)]

ghost use Rattle.std.specs.Prelude.{◌≡◌, ◌≤◌, length};
ghost use Rattle.answer.specs.Number.{answered};
ghost use Rattle.reed_solomon.specs.Encode.{encode_number, encode_output};
ghost use Rattle.reed_solomon.specs.Decode.{Decodes};
ghost use Rattle.reed_solomon.specs.Marks.{Marks, are_marks, marked, DecodesMarked};
ghost use Rattle.reed_solomon.specs.Steps.{residue_of};

use answer::Refusal;

mod division;
mod error_bits;
mod syndromes;

// What decoding changed in a block: how many bytes, and how many bits of them.
#[derive(Clone, Copy)]
pub struct Changed {
    pub bytes: u8,
    pub bits: u8,
}

impl Changed {
    // Nothing was changed.
    pub const NONE: Changed = Changed { bytes: 0, bits: 0 };
}

// Writes the 188 bytes of the message and the sixteen that make the block a codeword.
pub fn encode(message: &[u8], output: &mut [u8]) -> Result<(), Refusal>
    ensures { (answered result ≡ encode_number message.now output.old)
        × (output.new ≡ encode_output message.now output.old) }
{
    if message.len() != 188 {
        return Err(Refusal::PacketLength);
    }
    if output.len() < 204 {
        return Err(Refusal::OutputLength);
    }
    let check = division::check_bytes(message);
    common::put(message, 0, output);
    common::put(&check, 188, output);
    Ok(())
}

// Finds the wrong bytes of a block, those among the marked ones, f in number, and up to (16 - f) / 2 others, and takes them away where that explains the
// whole residue.
fn correct_errors(
    block: &mut [u8],
    residue: [u8; 16],
    marks: &[u8],
    f: usize,
) -> Result<Changed, Refusal>
    requires { (length block.old ≡ 204)
        × (residue ≡ residue_of block.old)
        × Marks marks.now
        × (f ≡ marked marks.now)
        × (f ≤ 16) }
    ensures { DecodesMarked marks.now block.old block.new result }
{
    let s = syndromes::syndromes(residue);
    let by_degree = error_correction::by_degree(marks, f);
    let erasures = error_correction::find_erasures(&by_degree, f);
    let size = (16 - f) / 2;
    let q = error_locator::locator(error_locator::modified(s, &erasures.places[..f]), size);
    let roots = error_correction::find_roots(&by_degree, f, q);
    let places = &roots.places[..roots.count];
    if !syndromes::recur(s, places) {
        return Err(Refusal::Uncorrectable);
    }
    let p = error_correction::root_product(places);
    let values = error_correction::error_values(p, s, roots);
    let bits = error_bits::set_bits(&values[..roots.count]);
    let bytes = error_correction::correct(block, roots, values);
    Ok(Changed { bytes, bits })
}

// Leaves the codeword within eight bytes of the block, if there is one, and tells what was changed. Else the block is as it came, and the
// refusal is Uncorrectable, or BlockLength for a block that is not 204 bytes. A clean block costs the division alone.
pub fn decode(block: &mut [u8]) -> Result<Changed, Refusal>
    ensures { Decodes block.old block.new result }
{
    if block.len() != 204 {
        return Err(Refusal::BlockLength);
    }
    let residue = division::residue(block);
    if division::is_zero(&residue) {
        return Ok(Changed::NONE);
    }
    let none = [0u8; 204];
    correct_errors(block, residue, &none, 0)
}

// Whether there is a mark, 0 or 1, for each byte of a block.
pub fn are_marks(marks: &[u8]) -> bool
    ensures { result ≡ are_marks marks.now }
{
    marks.len() == 204 && common::largest_of(marks) < 2
}

// How many bytes are marked.
fn count_marks(marks: &[u8]) -> u8
    requires { Marks marks.now }
    ensures { result ≡ marked marks.now }
{
    let mut count: u8 = 0;
    for mark in marks {
        count += *mark;
    }
    count
}

// Leaves the codeword that differs from the block in e bytes that are not marked, where f are marked and 2 e + f is at most 16, if there is one.
// With more than sixteen marks there is none, also for a clean block. The refusals are those of decode, and MarkValue for other than 204 marks of 0 or 1.
pub fn decode_marked(block: &mut [u8], marks: &[u8]) -> Result<Changed, Refusal>
    ensures { DecodesMarked marks.now block.old block.new result }
{
    if block.len() != 204 {
        return Err(Refusal::BlockLength);
    }
    if !are_marks(marks) {
        return Err(Refusal::MarkValue);
    }
    let f = count_marks(marks) as usize;
    if f > 16 {
        return Err(Refusal::Uncorrectable);
    }
    let residue = division::residue(block);
    if division::is_zero(&residue) {
        return Ok(Changed::NONE);
    }
    correct_errors(block, residue, marks, f)
}
