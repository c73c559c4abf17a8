// Functions for C and Rust on packets and blocks, over numbers and byte slices. A slice is a pointer and a length; slices of one call must not overlap.
// Their declarations for C are in include/dvbs.h.
#![tactic(auto)]

ghost use Rattle.std.specs.Prelude.{◌≡◌, ◌≤◌, ◌++◌, length, drop, set};
ghost use Rattle.reed_solomon.specs.Encode.{encode_number, encode_output};
ghost use Rattle.randomizer.specs.Packet.{randomize_number, randomize_output, derandomize_number, derandomize_output};
ghost use Rattle.answer.specs.Number.{answered, given_or};
ghost use Rattle.reed_solomon.specs.Decode.{Decodes};
ghost use Rattle.reed_solomon.specs.Marks.{DecodesMarked};
ghost use Rattle.reception_counts.specs.Bytes.{count_bytes};
ghost use Rattle.dvbs.specs.Decode.{count_after, decode_refusal, decode_marked_refusal, DecodeExported};
ghost use Rattle.dvbs.specs.SendRun.{send_run_count, send_run_output, send_run_answer};
ghost use Rattle.dvbs.specs.ReceiveRun.{ReceiveRunExported, ReceiveMarkedRunExported};
ghost use Rattle.dvbs.specs.RecordingBlock.{RecordingBlockExported};
ghost use Rattle.dvbs.specs.LossesRun.{LossesExported};

use answer::Refusal;
use reception_counts::count_bytes::put_counts;
use recording::Recorded;
use reed_solomon::Changed;

// Randomizes a packet at a place of its group: the number of the answer.
#[unsafe(no_mangle)]
pub extern "C" fn dvbs_randomize(place: u8, packet: &[u8], output: &mut [u8]) -> u8
    ensures { (result ≡ randomize_number place packet.now output.old)
        × (output.new ≡ randomize_output place packet.now output.old) }
{
    answer::answered(&randomizer::randomize(place, packet, output))
}

// Derandomizes a packet at a place of its group: the number of the answer.
#[unsafe(no_mangle)]
pub extern "C" fn dvbs_derandomize(place: u8, packet: &[u8], output: &mut [u8]) -> u8
    ensures { (result ≡ derandomize_number place packet.now output.old)
        × (output.new ≡ derandomize_output place packet.now output.old) }
{
    answer::answered(&randomizer::derandomize(place, packet, output))
}

// Codes 188 bytes to a block of 204: the number of the answer.
#[unsafe(no_mangle)]
pub extern "C" fn dvbs_rs_encode(message: &[u8], output: &mut [u8]) -> u8
    ensures { (result ≡ encode_number message.now output.old)
        × (output.new ≡ encode_output message.now output.old) }
{
    match reed_solomon::encode(message, output) {
        Ok(()) => 0,
        Err(refused) => refused.number(),
    }
}

// What decoding answered: its number. Where it is 0, the first two bytes of count get the numbers of bytes and bits changed.
fn put_decoded(decoded: Result<Changed, Refusal>, count: &mut [u8]) -> u8
    requires { 2 ≤ length count.old }
    ensures { (result ≡ answered decoded) × (count.new ≡ count_after decoded count.old) }
{
    match decoded {
        Ok(changed) => {
            count[0] = changed.bytes;
            count[1] = changed.bits;
            0
        }
        Err(refusal) => refusal.number(),
    }
}

// Decodes a block in place: the number of the answer. Where it is 0, the first two bytes of count have the numbers of bytes and bits changed.
#[unsafe(no_mangle)]
pub extern "C" fn dvbs_rs_decode(block: &mut [u8], count: &mut [u8]) -> u8
    ensures { DecodeExported (Decodes block.old block.new) (decode_refusal block.old count.old)
        block.old block.new count.old count.new result }
{
    if block.len() != 204 {
        return 3;
    }
    if count.len() < 2 {
        return 4;
    }
    put_decoded(reed_solomon::decode(block), count)
}

// Decodes a block in place with a mark, 0 or 1, for each byte: the number of the answer. Where it is 0, the first two bytes of count have the
// numbers of bytes and bits changed, marked or not.
#[unsafe(no_mangle)]
pub extern "C" fn dvbs_rs_decode_marked(block: &mut [u8], marks: &[u8], count: &mut [u8]) -> u8
    ensures { DecodeExported (DecodesMarked marks.now block.old block.new)
        (decode_marked_refusal marks.now block.old count.old)
        block.old block.new count.old count.new result }
{
    if block.len() != 204 {
        return 3;
    }
    if !reed_solomon::are_marks(marks) {
        return 20;
    }
    if count.len() < 2 {
        return 4;
    }
    put_decoded(reed_solomon::decode_marked(block, marks), count)
}

// Sends a whole list of packets with a fresh sender: the number of symbols written. The first byte of answer has the number of the answer.
#[unsafe(no_mangle)]
pub extern "C" fn dvbs_send_run(
    rate: u8,
    packets: &[u8],
    output: &mut [u8],
    answer: &mut [u8],
) -> u64
    ensures { (result ≡ send_run_count rate packets.now output.old answer.old)
        × (output.new ≡ send_run_output rate packets.now output.old answer.old)
        × (answer.new ≡ send_run_answer rate packets.now output.old answer.old) }
{
    if answer.len() < 1 {
        return 0;
    }
    match sender_stream::run::send_run(rate, packets, output) {
        Ok(run) => {
            answer[0] = run.number();
            run.count as u64
        }
        Err(refusal) => {
            answer[0] = refusal.number();
            0
        }
    }
}

// What a run answered: the number of bytes of packets written. The first byte of answer gets the number of the answer, and where it is 0 the
// counts go to lent bytes.
fn put_recorded(recorded: Result<Recorded, Refusal>, counts: &mut [u8], answer: &mut [u8]) -> u64
    requires { (64 ≤ length counts.old) × (1 ≤ length answer.old) }
    ensures { (result ≡ given_or 0 (λ r. r.count) recorded)
        × (counts.new ≡ given_or counts.old (λ r. count_bytes r.receiver.counts ++ drop 64 counts.old) recorded)
        × (answer.new ≡ set answer.old 0 (answered recorded)) }
{
    match recorded {
        Ok(recorded) => {
            answer[0] = 0;
            put_counts(recorded.receiver.counts, counts);
            recorded.count as u64
        }
        Err(refused) => {
            answer[0] = refused.number();
            0
        }
    }
}

// Takes the whole blocks of a recording with a fresh receiver: the number of bytes of packets written. The counts go to lent bytes, and the
// first byte of answer has the number of the answer.
#[unsafe(no_mangle)]
pub extern "C" fn dvbs_receive_run(
    blocks: &[u8],
    output: &mut [u8],
    counts: &mut [u8],
    answer: &mut [u8],
) -> u64
    ensures { ReceiveRunExported blocks.now output.old output.new counts.old counts.new answer.old answer.new result }
{
    if answer.len() < 1 {
        return 0;
    }
    if counts.len() < 64 {
        answer[0] = 4;
        return 0;
    }
    put_recorded(recording::receive_run(blocks, output), counts, answer)
}

// The same with a mark, 0 or 1, for each byte.
#[unsafe(no_mangle)]
pub extern "C" fn dvbs_receive_run_marked(
    blocks: &[u8],
    marks: &[u8],
    output: &mut [u8],
    counts: &mut [u8],
    answer: &mut [u8],
) -> u64
    ensures { ReceiveMarkedRunExported blocks.now marks.now output.old output.new counts.old counts.new answer.old answer.new result }
{
    if answer.len() < 1 {
        return 0;
    }
    if !recording::are_marks_for(blocks, marks) {
        answer[0] = 20;
        return 0;
    }
    if counts.len() < 64 {
        answer[0] = 4;
        return 0;
    }
    put_recorded(
        recording::receive_marked_run(blocks, marks, output),
        counts,
        answer,
    )
}

// Block p of a recording that has so many whole blocks, corrected into the output: the number of the answer. Where it is 0, the first
// two bytes of count have the numbers of bytes and bits changed.
#[unsafe(no_mangle)]
pub extern "C" fn dvbs_recording_block(
    recording: &[u8],
    blocks: u64,
    p: u64,
    output: &mut [u8],
    count: &mut [u8],
) -> u8
    ensures { RecordingBlockExported recording.now blocks p output.old output.new count.old count.new result }
{
    if count.len() < 2 {
        // As with no room at all: 5 and 16 come before 4.
        let refused = recording::block::decoded_block(recording, blocks, p, &mut []);
        return put_decoded(refused, &mut [0u8; 2]);
    }
    put_decoded(
        recording::block::decoded_block(recording, blocks, p, output),
        count,
    )
}

// The list of what to ask for again of a recording, with a mark, 0 or 1, for each byte or none at all: the number of lines written. A line is 16
// times the block, and its answer: 8, 10, 11, or 0 for a packet in doubt. The first byte of answer has the number of the answer.
#[unsafe(no_mangle)]
pub extern "C" fn dvbs_losses_run(
    blocks: &[u8],
    marks: &[u8],
    lines: &mut [u64],
    answer: &mut [u8],
) -> u64
    ensures { LossesExported blocks.now marks.now lines.old lines.new answer.old answer.new result }
{
    if answer.len() < 1 {
        return 0;
    }
    match losses::list_losses(blocks, marks, lines) {
        Ok(count) => {
            answer[0] = 0;
            count as u64
        }
        Err(refusal) => {
            answer[0] = refusal.number();
            0
        }
    }
}
