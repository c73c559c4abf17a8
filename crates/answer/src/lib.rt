// Why a call is refused. specs/Number.antt gives each case its number, and a call that may be refused that of its answer.
#![tactic(auto)]

ghost use Rattle.std.specs.Prelude.{◌≡◌};
ghost use Rattle.answer.specs.Number.{number_of, answered};

#[derive(Clone, Copy, Debug, PartialEq, Eq)]
pub enum Refusal {
    // A packet, or the message of the outer coder, is not 188 bytes.
    PacketLength = 1,
    // A packet does not begin with the sync byte 47 hex.
    SyncByte = 2,
    // A block is not 204 bytes.
    BlockLength = 3,
    // The output lent, document 01's room, is shorter than what is to be written.
    OutputLength = 4,
    // A number in the state lies outside its range.
    StateRange = 5,
    // A mode that is not sent: a sender or an inner coder is wanted in one, or has it in its state. Of reading: a rate other than 0 to 4.
    UnknownRate = 6,
    // The receiver has taken as many blocks as it can count.
    CountsFull = 7,
    // No codeword is within eight bytes, or with marks near enough.
    Uncorrectable = 8,
    // The symbols of a run do not make whole puncturing patterns.
    PatternLength = 12,
    // A run has more than 1,632 bits.
    RunLength = 13,
    // A symbol is above 3.
    SymbolRange = 14,
    // A recording has no such block, or a receiver would not take it.
    NoSuchBlock = 16,
    // A text is not that of a pass report, or a number in it is past its limit.
    NotReport = 17,
    // The middle five counts of a report do not add up to taken, or filling is not the smaller of taken and 11.
    WrongSums = 18,
    // A report that is to go back to form 1 tells its bits, or one is in the form wanted already.
    FormKept = 19,
    // There is not a mark for each byte, or one is above 1.
    MarkValue = 20,
    // Something follows the 4,096 reports of a season.
    TooManyReports = 21,
    // A state given as bytes is not as long as a state is.
    StateLength = 22,
    // There is no count with this number.
    UnknownCount = 23,
    // The lists of a soft run are not of one length, or a mark is above 1.
    SoftLists = 24,
}

impl Refusal {
    // The number that documents 01 and 02 give the refusal.
    pub fn number(self) -> u8
        ensures { result ≡ number_of self }
    {
        self as u8
    }
}

// The number of the answer of a call that may be refused: 0 where it was not.
pub fn answered<T>(given: &Result<T, Refusal>) -> u8
    ensures { result ≡ answered given.now }
{
    match given {
        Ok(_) => 0,
        Err(refusal) => refusal.number(),
    }
}
