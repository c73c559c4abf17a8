// One block of a recording, corrected: document 02, P5. Twelve blocks of the recording are looked at, however long it is.
ghost use Rattle.std.specs.Prelude.{◌≡◌, ◌+◌, ◌*◌, ◌≤◌, length};
ghost use Rattle.interleaver.specs.Gathered.{gathered};
ghost use Rattle.recording.specs.Block.{block_count, GivesBlock};

use answer::Refusal;
use reed_solomon::Changed;

// Copies the 204 bytes that the block depends on.
fn gather(bytes: &[u8], p: usize, block: &mut [u8])
    requires { (204 * (p + 12) ≤ length bytes.now) × (length block.old ≡ 204) }
    ensures { block.new ≡ gathered bytes.now p }
{
    for n in 0..204 {
        block[n] = bytes[204 * (p + n % 12) + n];
    }
}

// How many whole blocks a recording has.
pub fn whole_blocks(bytes: &[u8]) -> u64
    ensures { result ≡ block_count bytes.now }
{
    (bytes.len() / 204) as u64
}

// Block p of a recording that is said to have so many whole blocks, corrected into the output.
pub fn decoded_block(
    bytes: &[u8],
    blocks: u64,
    p: u64,
    output: &mut [u8],
) -> Result<Changed, Refusal>
    ensures { GivesBlock bytes.now blocks p output.old result output.new }
{
    if blocks != whole_blocks(bytes) {
        return Err(Refusal::StateRange);
    }
    // No sum here wraps, whatever p is.
    let most = blocks.min(4294967295);
    if most < 12 || most - 12 < p {
        return Err(Refusal::NoSuchBlock);
    }
    if output.len() < 204 {
        return Err(Refusal::OutputLength);
    }
    let mut block = [0u8; 204];
    gather(bytes, p as usize, &mut block);
    let changed = reed_solomon::decode(&mut block)?;
    common::put(&block, 0, output);
    Ok(changed)
}

// A recording that remembers how many whole blocks it has.
#[derive(Clone, Copy)]
pub struct RecordingView<'a> {
    pub bytes: &'a [u8],
    pub blocks: u64,
}

impl<'a> RecordingView<'a> {
    // A recording, with the number of its whole blocks.
    pub fn new(bytes: &'a [u8]) -> RecordingView<'a>
        ensures { (result.bytes ≡ bytes.entry) × (result.blocks ≡ block_count bytes.now) }
    {
        RecordingView {
            bytes,
            blocks: whole_blocks(bytes),
        }
    }

    // Block p, corrected into the output.
    pub fn block(self, p: u64, output: &mut [u8]) -> Result<Changed, Refusal>
        ensures { GivesBlock self.entry.bytes.now self.entry.blocks p output.old result output.new }
    {
        decoded_block(self.bytes, self.blocks, p, output)
    }
}
