// Reading symbols that begin with an unknown memory: how many symbols of which nothing is known go in front of them, and how many bits these stand for.
// Inner: its functions may require what the crates above have tested. docs/ARCHITECTURE.md names the public surface.
#![tactic(auto)]

ghost use Rattle.std.specs.Prelude.{◌≡◌, ◌<◌};
ghost use Rattle.free_start.specs.Lead.{lead_symbols, bits_of_lead};

// The lead of a rate: its symbols, and the bits that they stand for.
#[derive(Clone, Copy)]
struct Lead {
    symbols: usize,
    bits: u8,
}

const LEADS: [Lead; 5] = [
    Lead {
        symbols: 6,
        bits: 6,
    },
    Lead {
        symbols: 6,
        bits: 8,
    },
    Lead {
        symbols: 4,
        bits: 6,
    },
    Lead {
        symbols: 6,
        bits: 10,
    },
    Lead {
        symbols: 4,
        bits: 7,
    },
];

pub fn lead_symbols(rate: u8) -> usize
    requires { rate < 5 }
    ensures { result ≡ lead_symbols rate }
{
    LEADS[rate as usize].symbols
}

pub fn lead_bits(rate: u8) -> u8
    requires { rate < 5 }
    ensures { result ≡ bits_of_lead rate }
{
    LEADS[rate as usize].bits
}
