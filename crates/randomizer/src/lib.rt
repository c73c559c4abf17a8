// Randomizing for energy dispersal, and its removal: EN 300 421, 4.4.1.
#![tactic(auto)]

ghost use Rattle.std.specs.Prelude.{◌≡◌, true, ◌++◌, ◌+◌, ◌≤◌, length, drop};
ghost use Rattle.answer.specs.Number.{answered};
ghost use Rattle.randomizer.specs.Masks.{are_masks, Table, Begun};
ghost use Rattle.randomizer.specs.Packet.{randomized, randomize_number, randomize_output, derandomize_number, derandomize_output};

mod masks;

use answer::Refusal;
use masks::{MASKS_0, MASKS_1, MASKS_2, MASKS_3, MASKS_4, MASKS_5, MASKS_6, MASKS_7};

// The masks of a place of the group, as they are given: each call shows, by computation, that its table is that of the place.
fn table(place: u8, masks: [u8; 188]) -> [u8; 188]
    requires { are_masks place masks ≡ true }
    ensures { Table place result }
{
    masks
}

// So many bytes more of the packet, each xored with its mask, behind those that are there. A compiler takes sixteen at once: a loop over all 188 bytes takes
// a third more instructions. No byte is written twice: the array then stays in registers.
fn xor_more<const N: usize>(
    place: u8,
    packet: &[u8],
    masks: [u8; 188],
    at: usize,
    written: &mut [u8],
)
    requires { (at + N ≤ 188) × (length masks ≡ 188) × (length written.old ≡ 188) × Begun place packet.now masks at written.old }
    ensures { Begun place packet.now masks (at + N) written.new }
{
    for i in at..at + N {
        written[i] = packet[i] ^ masks[i];
    }
}

// The packet as it is sent at one place of its group: eleven times sixteen bytes, and twelve.
// The place is a constant, so that the compiler makes a function for each: there it sees the masks, and they become constants of its instructions.
// Where one function serves several places, it lays out 188 masks in memory at each call.
fn sent<const PLACE: u8>(packet: &[u8], masks: [u8; 188]) -> [u8; 188]
    requires { (PLACE ≤ 7) × (length packet.now ≡ 188) × Table PLACE masks }
    ensures { result ≡ randomized PLACE packet.now }
{
    let mut written = [0u8; 188];
    for k in 0..11 {
        xor_more::<16>(PLACE, packet, masks, 16 * k, &mut written);
    }
    xor_more::<12>(PLACE, packet, masks, 176, &mut written);
    written
}

// Writes the packet as it is sent at a place of its group.
fn apply(place: u8, packet: &[u8], output: &mut [u8])
    requires { (place ≤ 7) × (length packet.now ≡ 188) × (188 ≤ length output.old) }
    ensures { output.new ≡ randomized place packet.now ++ drop 188 output.old }
{
    let sent = match place {
        0 => sent::<0>(packet, table(0, MASKS_0)),
        1 => sent::<1>(packet, table(1, MASKS_1)),
        2 => sent::<2>(packet, table(2, MASKS_2)),
        3 => sent::<3>(packet, table(3, MASKS_3)),
        4 => sent::<4>(packet, table(4, MASKS_4)),
        5 => sent::<5>(packet, table(5, MASKS_5)),
        6 => sent::<6>(packet, table(6, MASKS_6)),
        _ => sent::<7>(packet, table(7, MASKS_7)),
    };
    common::put(&sent, 0, output);
}

// Writes the packet at a place of its group as it is sent.
pub fn randomize(place: u8, packet: &[u8], output: &mut [u8]) -> Result<(), Refusal>
    ensures { (answered result ≡ randomize_number place packet.now output.old)
        × (output.new ≡ randomize_output place packet.now output.old) }
{
    if place > 7 {
        return Err(Refusal::StateRange);
    }
    if packet.len() != 188 {
        return Err(Refusal::PacketLength);
    }
    if packet[0] != 0x47 {
        return Err(Refusal::SyncByte);
    }
    if output.len() < 188 {
        return Err(Refusal::OutputLength);
    }
    apply(place, packet, output);
    Ok(())
}

// Writes the packet that was sent at a place of its group.
pub fn derandomize(place: u8, packet: &[u8], output: &mut [u8]) -> Result<(), Refusal>
    ensures { (answered result ≡ derandomize_number place packet.now output.old)
        × (output.new ≡ derandomize_output place packet.now output.old) }
{
    if place > 7 {
        return Err(Refusal::StateRange);
    }
    if packet.len() != 188 {
        return Err(Refusal::PacketLength);
    }
    if output.len() < 188 {
        return Err(Refusal::OutputLength);
    }
    apply(place, packet, output);
    output[0] = 0x47;
    Ok(())
}
