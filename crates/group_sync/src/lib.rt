// How the receiver keeps step with the groups of eight packets: EN 300 421, 4.4.1, inverts the sync byte of the first packet of each group.
#![tactic(auto)]

ghost use Rattle.std.specs.Prelude.{◌≡◌};
ghost use Rattle.group_sync.specs.Group.{later_place, known_after, byte_at_first, step, step_odd, searching, start_due, packet_due, accepted_step, group_step, sync_in_range, fresh_sync};

// What a block taken comes to.
#[derive(Clone, Copy)]
pub enum Outcome {
    // The delay branches are filling: the block that they give is not whole.
    Filling,
    // A packet, at this place of its group.
    Delivered(u8),
    // No codeword is near enough.
    Lost,
    // A codeword, while no group start was seen.
    Waiting,
    // A codeword without the sync byte that is due.
    OutOfStep,
}

// What the first byte of a packet says of its place.
#[derive(Clone, Copy)]
enum FirstByte {
    // B8: the sync byte of the first packet of a group, inverted.
    InvertedSync,
    // 47: the sync byte of the other seven.
    Sync,
    Neither,
}

// Group synchronization.
#[derive(Clone, Copy)]
pub struct GroupSync {
    // The place of the next packet in its group of eight, 0 to 7, where it is known: document 01's group place.
    pub place: Option<u8>,
    // How many blocks since the last sync byte in its place had neither sync byte first: 0 or 1, document 02's mark.
    pub missed: u8,
}

// An outcome, and the synchronization after it.
#[derive(Clone, Copy)]
pub struct GroupStep {
    pub outcome: Outcome,
    pub sync: GroupSync,
}

fn first_byte(first: u8) -> FirstByte
    ensures { result ≡ byte_at_first first }
{
    match first {
        0xB8 => FirstByte::InvertedSync,
        0x47 => FirstByte::Sync,
        _ => FirstByte::Neither,
    }
}

// The place after a place.
fn place_after(place: u8) -> u8
    ensures { result ≡ later_place place }
{
    if place < GroupSync::GROUP_LENGTH - 1 {
        place + 1
    } else {
        0
    }
}

fn stepped(outcome: Outcome, place: Option<u8>, missed: u8) -> GroupStep
    ensures { result ≡ step outcome place missed }
{
    GroupStep {
        outcome,
        sync: GroupSync { place, missed },
    }
}

// A codeword with neither sync byte first, at a place that is known.
fn odd(place: u8, missed: u8) -> GroupStep
    ensures { result ≡ step_odd place missed }
{
    if missed == 0 {
        return stepped(Outcome::OutOfStep, Some(place_after(place)), 1);
    }
    stepped(Outcome::OutOfStep, None, 0)
}

// A codeword while the place is not known.
fn found(first: FirstByte) -> GroupStep
    ensures { result ≡ searching first }
{
    match first {
        FirstByte::InvertedSync => stepped(Outcome::Delivered(0), Some(1), 0),
        FirstByte::Sync => stepped(Outcome::Waiting, None, 0),
        FirstByte::Neither => stepped(Outcome::Waiting, None, 0),
    }
}

// A codeword where the start of a group is due.
fn start_due(missed: u8, first: FirstByte) -> GroupStep
    ensures { result ≡ start_due missed first }
{
    match first {
        FirstByte::InvertedSync => stepped(Outcome::Delivered(0), Some(1), 0),
        FirstByte::Sync => stepped(Outcome::OutOfStep, None, 0),
        FirstByte::Neither => odd(0, missed),
    }
}

// A codeword where another packet of a group is due.
fn packet_due(place: u8, missed: u8, first: FirstByte) -> GroupStep
    ensures { result ≡ packet_due place missed first }
{
    match first {
        FirstByte::InvertedSync => stepped(Outcome::Delivered(0), Some(1), 0),
        FirstByte::Sync => stepped(Outcome::Delivered(place), Some(place_after(place)), 0),
        FirstByte::Neither => odd(place, missed),
    }
}

// A codeword at a place that is known.
fn expected(place: u8, missed: u8, first: FirstByte) -> GroupStep
    ensures { result ≡ accepted_step (Some place) missed first }
{
    if place == 0 {
        return start_due(missed, first);
    }
    packet_due(place, missed, first)
}

impl GroupSync {
    // The packets of a group.
    pub const GROUP_LENGTH: u8 = 8;

    pub fn new() -> GroupSync
        ensures { result ≡ fresh_sync }
    {
        GroupSync {
            place: None,
            missed: 0,
        }
    }

    // Whether the place is not known and nothing is missed, or the place is 0 to 7 and at most one is.
    pub fn in_range(self) -> bool
        ensures { result ≡ sync_in_range self }
    {
        match self.place {
            None => self.missed == 0,
            Some(p) => p < GroupSync::GROUP_LENGTH && self.missed < 2,
        }
    }

    // After a block that was lost: a place that is known goes on, and what is missed stays.
    fn moved(self) -> GroupStep
        ensures { result ≡ step Outcome.Lost (known_after self.place) self.missed }
    {
        stepped(Outcome::Lost, self.place.map(place_after), self.missed)
    }

    // A codeword with this first byte.
    fn accepted(self, first: u8) -> GroupStep
        ensures { result ≡ accepted_step self.place self.missed (byte_at_first first) }
    {
        let byte = first_byte(first);
        match self.place {
            None => found(byte),
            Some(p) => expected(p, self.missed, byte),
        }
    }

    // One block, by the first byte of the codeword that the outer decoder, which document 01 calls the repair, made of it, or None where no
    // codeword is near enough.
    pub fn step(self, codeword: Option<u8>) -> GroupStep
        ensures { result ≡ group_step self codeword }
    {
        match codeword {
            None => self.moved(),
            Some(first) => self.accepted(first),
        }
    }
}
