// The counts of a receiver.
// Inner: its functions may require what the crates above have tested. docs/ARCHITECTURE.md names the public surface.
#![tactic(auto)]

ghost use Rattle.std.specs.Prelude.{◌≡◌};
ghost use Rattle.reception_counts.specs.Counts.{CountsFit, zero_counts, counts_in_range, outcome_number, counted};

pub mod count_bytes;

use group_sync::Outcome;

// How many blocks were taken, what each of them came to, and how many bytes and bits were changed in the accepted ones.
#[derive(Clone, Copy)]
pub struct Counts {
    pub taken: u64,
    pub filling: u64,
    pub delivered: u64,
    pub lost: u64,
    pub waiting: u64,
    pub outofstep: u64,
    pub changed: u64,
    pub bits: u64,
}

impl Counts {
    // A receiver takes this many blocks.
    pub const MOST: u64 = 4294967295;

    pub fn new() -> Counts
        ensures { result ≡ zero_counts }
    {
        Counts {
            taken: 0,
            filling: 0,
            delivered: 0,
            lost: 0,
            waiting: 0,
            outofstep: 0,
            changed: 0,
            bits: 0,
        }
    }

    // Whether the counts are such as a receiver can have. Each is compared with taken before any are added, so that no sum wraps.
    pub fn in_range(self) -> bool
        ensures { result ≡ counts_in_range self }
    {
        let taken = self.taken;
        let filling = self.filling;
        let delivered = self.delivered;
        let lost = self.lost;
        let waiting = self.waiting;
        let outofstep = self.outofstep;
        let changed = self.changed;
        let bits = self.bits;
        if taken > Counts::MOST {
            return false;
        }
        if filling > taken {
            return false;
        }
        if delivered > taken {
            return false;
        }
        if lost > taken {
            return false;
        }
        if waiting > taken {
            return false;
        }
        if outofstep > taken {
            return false;
        }
        if filling + delivered + lost + waiting + outofstep != taken {
            return false;
        }
        if filling != taken.min(11) {
            return false;
        }
        if changed > 16 * (delivered + waiting + outofstep) {
            return false;
        }
        if changed > bits {
            return false;
        }
        bits <= 8 * changed
    }
}

// The number that document 01 gives a block by what it came to.
pub fn outcome_number(outcome: Outcome) -> u8
    ensures { result ≡ outcome_number outcome }
{
    match outcome {
        Outcome::Filling => 9,
        Outcome::Delivered(_) => 0,
        Outcome::Lost => 8,
        Outcome::Waiting => 10,
        Outcome::OutOfStep => 11,
    }
}

// The counts after a block that came to this, with so many bytes and bits changed.
pub fn count(counts: Counts, outcome: Outcome, changed: u64, bits: u64) -> Counts
    requires { CountsFit counts changed bits }
    ensures { result ≡ counted counts (outcome_number outcome) changed bits }
{
    let mut next = counts;
    next.taken += 1;
    next.changed += changed;
    next.bits += bits;
    match outcome {
        Outcome::Filling => {
            next.filling += 1;
        }
        Outcome::Delivered(_) => {
            next.delivered += 1;
        }
        Outcome::Lost => {
            next.lost += 1;
        }
        Outcome::Waiting => {
            next.waiting += 1;
        }
        Outcome::OutOfStep => {
            next.outofstep += 1;
        }
    }
    next
}
