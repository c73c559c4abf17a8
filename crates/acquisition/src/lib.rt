// Acquisition: blocks from received symbols that begin anywhere, turned any way. It searches for the rate, the place of the puncturing pattern and the turn,
// reads by what it found, and finds the blocks by their sync bytes. docs/ACQUISITION.md says exactly what is decided.
// Inner: its functions may require what the crates above have tested. docs/ARCHITECTURE.md names the public surface.
#![tactic(auto)]

ghost use Rattle.std.specs.Prelude.{◌≡◌, [], ◌+◌, ◌<◌, ◌≤◌, length};
ghost use Rattle.common.specs.Lists.{All};
ghost use Rattle.node_search.specs.Search.{FoundKnown};
ghost use Rattle.acquisition.specs.Reading.{symbol_at, turn_read, turn_told, idle_reading, Begins, TakesBits, event_of, block_found, used_by, ReadingReady, SettlesBits, ReadsSymbols};
ghost use Rattle.acquisition.specs.End.{ClosesReading, last_event, ClosesBlocks, over_with, proceeds, EndsBlocks, EndsAcquisition, EndCounts};
ghost use Rattle.acquisition.specs.Step.{StepCounts, searching_on, reading_on, waiting, SearchReady, ReadReady, AfterSearch, ends_reading, mirrored_next, lost_reading, after_reading, SearchesOn, ReadsPending, ReadsPiece, AcquisitionReady, fresh_acquisition, StepsAcquisition};

use block_sync::{BlockSync, SyncStep};
use common::joined;
use free_start::{lead_bits, lead_symbols};
use node_search::{Hypothesis, Search};
use puncturing::pattern_length;
use reader::symbol_count;
use reader_stream::symbol_runs::SymbolRuns;
use symbol_turns::{turn_pairs, undoing_turn};

pub mod bit_source;

// Reading by a hypothesis: the turn that the symbols came with, the runs and the blocks in progress, how many symbols came before the first that is read, and how
// many bits the decisions on blocks used up. The bits of the lead are among these.
#[derive(Clone, Copy)]
pub struct Reading {
    pub turn: u8,
    pub runs: SymbolRuns,
    pub sync: BlockSync,
    pub first: u64,
    pub used: u64,
}

#[derive(Clone, Copy)]
pub enum Phase {
    Searches,
    Reads,
}

// The rate that is searched, or 5 for any; whether a reading at 5/6 takes the symbols for mirrored; the phase, and the reading, which is idle while it searches;
// the symbols that are not read yet, so many at the front of an array; and how many came in all.
#[derive(Clone, Copy)]
pub struct Acquisition {
    pub rate: u8,
    pub mirrored: bool,
    pub phase: Phase,
    pub reading: Reading,
    pub pending: [u8; 1632],
    pub held: usize,
    pub came: u64,
}

// A block that was found: whether it begins a lock, by which rate and turn it was read, how many symbols came before the pattern of its first bit and before
// that of the bit behind it, and its bytes.
#[derive(Clone, Copy)]
pub struct FoundBlock {
    pub begins: bool,
    pub rate: u8,
    pub turn: u8,
    pub start: u64,
    pub end: u64,
    pub bytes: [u8; 204],
}

#[derive(Clone, Copy)]
pub enum Event {
    Waits,
    // A block was found.
    Block(FoundBlock),
    // No block follows, and a lock is lost.
    Lost,
}

// The value after it, how many symbols of the piece were taken, and what happened.
#[derive(Clone, Copy)]
pub struct Step {
    pub acquisition: Acquisition,
    pub taken: usize,
    pub event: Event,
}

// The same after the last piece: where that was all, how many bits are behind the last block.
#[derive(Clone, Copy)]
pub struct EndStep {
    pub acquisition: Acquisition,
    pub event: Event,
    pub over: Option<usize>,
}

// The reading after some symbols, how many of them were taken, and what happened.
#[derive(Clone, Copy)]
pub struct ReadStep {
    pub reading: Reading,
    pub taken: usize,
    pub event: Event,
}

// How many symbols came before the pattern that has a bit of a reading. The bits of the lead count as the first one behind it.
fn symbol_at(rate: u8, first: u64, bit: u64) -> u64
    requires { (rate < 5) × (first + bit < 9223372036854775808) }
    ensures { result ≡ symbol_at rate first bit }
{
    let length = pattern_length(rate) as u64;
    let lead = lead_bits(rate) as u64;
    if bit < lead {
        return first;
    }
    first + symbol_count(rate) as u64 * ((bit - lead) / length)
}

// The turn that a reading turns back, where at 5/6 the symbols are taken for mirrored or not.
fn turn_read(hypothesis: Hypothesis, mirrored: bool) -> u8
    requires { hypothesis.turn < 8 }
    ensures { (result ≡ turn_read hypothesis mirrored) × (result < 8) }
{
    if hypothesis.rate == 3 && mirrored {
        return (hypothesis.turn + 4) % 8;
    }
    hypothesis.turn
}

// The turn of symbols whose bits are inverted or not: two quarters further where they are.
fn turn_told(turn: u8, inverted: bool) -> u8
    requires { turn < 8 }
    ensures { result ≡ turn_told turn inverted }
{
    if inverted {
        return turn / 4 * 4 + (turn + 2) % 4;
    }
    turn
}

// No reading.
fn idle() -> Reading
    ensures { result ≡ idle_reading }
{
    let sync = BlockSync::new();
    Reading {
        turn: 0,
        runs: SymbolRuns {
            rate: 0,
            memory: 0,
            held: [0u8; 1632],
            count: 0,
        },
        sync,
        first: 0,
        used: 0,
    }
}

// Begins a reading: behind a lead of lost symbols, no symbol has come.
fn begin(hypothesis: Hypothesis, mirrored: bool, first: u64) -> Reading
    requires { (hypothesis.rate < 5) × (hypothesis.turn < 8) }
    ensures { Begins hypothesis mirrored first result }
{
    let rate = hypothesis.rate;
    let turn = turn_read(hypothesis, mirrored);
    let open = reader_stream::symbol_runs::open(rate);
    let lost = [80u8; 8];
    let count = lead_symbols(rate);
    let mut bits = [0u8; 1632];
    let led = reader_stream::symbol_runs::feed(open, &lost[..count], &mut bits);
    let runs = led.runs;
    let sync = BlockSync::new();
    Reading {
        turn,
        runs,
        sync,
        first,
        used: 0,
    }
}

// Takes bits, which make one block at most.
fn take_bits(sync: BlockSync, bits: &[u8]) -> SyncStep
    requires { (sync.held < 8168) × (length bits.now ≤ 1632) }
    ensures { TakesBits sync bits.now result }
{
    let first = sync.take(bits);
    let second = first.sync.take(&bits[first.taken..]);
    SyncStep {
        taken: bits.len(),
        skipped: first.skipped,
        block: first.block,
        sync: second.sync,
    }
}

// What a decision on bits means, which skipped so many: a block was found, none follows, or there was no decision.
fn event_of(found: Option<FoundBlock>, skipped: usize) -> Event
    ensures { result ≡ event_of found skipped }
{
    match found {
        Some(block) => Event::Block(block),
        None if 0 < skipped => Event::Lost,
        None => Event::Waits,
    }
}

// The block that a decision gave, if it gave one, where so many bits were used before it.
fn block_found(rate: u8, turn: u8, first: u64, used: u64, decided: SyncStep) -> Option<FoundBlock>
    requires { (rate < 5) × (turn < 8) × (first + used < 4611686018427387904) × (decided.skipped ≤ 8168) }
    ensures { result ≡ block_found rate turn first used decided }
{
    let given = decided.block?;
    let bytes = given.bytes;
    let at = used + decided.skipped as u64;
    Some(FoundBlock {
        begins: given.begins,
        rate,
        turn: turn_told(turn, decided.sync.lock.inverted),
        start: symbol_at(rate, first, at),
        end: symbol_at(rate, first, at + 1632),
        bytes,
    })
}

// How many bits a decision used up.
fn used_by(decided: SyncStep) -> u64
    requires { decided.skipped ≤ 8168 }
    ensures { result ≡ used_by decided }
{
    let skipped = decided.skipped as u64;
    match decided.block {
        Some(_) => skipped + 1632,
        None => skipped,
    }
}

// Puts the bits that some symbols gave to the blocks in progress.
fn settle(reading: Reading, runs: SymbolRuns, taken: usize, bits: &[u8]) -> ReadStep
    requires { (ReadingReady reading) × (length bits.now ≤ 1632) }
    ensures { SettlesBits reading runs taken bits.now result }
{
    let decided = take_bits(reading.sync, bits);
    let found = block_found(
        reading.runs.rate,
        reading.turn,
        reading.first,
        reading.used,
        decided,
    );
    let event = event_of(found, decided.skipped);
    let more = used_by(decided);
    ReadStep {
        reading: Reading {
            turn: reading.turn,
            runs,
            sync: decided.sync,
            first: reading.first,
            used: reading.used + more,
        },
        taken,
        event,
    }
}

// Reads symbols: as many as complete a run, or all.
fn read(reading: Reading, symbols: &[u8]) -> ReadStep
    requires { (ReadingReady reading) × (All (λ p. p < 81) symbols.now) × (length symbols.now ≤ 1632) }
    ensures { ReadsSymbols reading symbols.now result }
{
    let turn = reading.turn;
    let runs = reading.runs;
    let mut turned = [0u8; 1632];
    turn_pairs(undoing_turn(turn), symbols, &mut turned);
    let mut bits = [0u8; 1632];
    let size = symbols.len();
    let fed = reader_stream::symbol_runs::feed(runs, &turned[..size], &mut bits);
    let next = fed.runs;
    let count = fed.count;
    settle(reading, next, fed.taken, &bits[..count])
}

// Whether a decision that gives no block ends the reading: the one before it gave none either.
fn ends_reading(locked: bool, used: u64) -> bool
    ensures { result ≡ ends_reading locked used }
{
    !locked && 0 < used
}

// Whether the next reading at 5/6 takes the symbols for mirrored, where one is over of which so many bits were used up before: where these are those of one
// decision without a block, it gave none, and the next one takes them the other way.
fn mirrored_next(mirrored: bool, used: u64) -> bool
    ensures { result ≡ mirrored_next mirrored used }
{
    if used == 1633 {
        return !mirrored;
    }
    mirrored
}

// Searching, with symbols pending.
fn searching_on(rate: u8, mirrored: bool, pending: &[u8], came: u64) -> Acquisition
    requires { length pending.now ≤ 1632 }
    ensures { result ≡ searching_on rate mirrored pending.now came }
{
    let kept = joined::<1632>(pending, &pending[..0]);
    let reading = idle();
    Acquisition {
        rate,
        mirrored,
        phase: Phase::Searches,
        reading,
        pending: kept,
        held: pending.len(),
        came,
    }
}

// Reading, with symbols pending.
fn reading_on(rate: u8, mirrored: bool, reading: Reading, pending: &[u8], came: u64) -> Acquisition
    requires { length pending.now ≤ 1632 }
    ensures { result ≡ reading_on rate mirrored reading pending.now came }
{
    let kept = joined::<1632>(pending, &pending[..0]);
    Acquisition {
        rate,
        mirrored,
        phase: Phase::Reads,
        reading,
        pending: kept,
        held: pending.len(),
        came,
    }
}

// What a search of a full window leaves: a reading of the symbols from the offset on, or nothing of them.
fn searched(rate: u8, mirrored: bool, came: u64, window: &[u8], search: Search) -> Acquisition
    requires { (length window.now ≡ 1632) × (1632 ≤ came) × (came < 1152921504606846976) × (FoundKnown search) }
    ensures { AfterSearch rate mirrored came window.now search result }
{
    match search {
        Search::Found(hypothesis) => {
            let offset = hypothesis.offset as usize;
            let begun = begin(hypothesis, mirrored, came - 1632 + offset as u64);
            reading_on(rate, mirrored, begun, &window[offset..], came)
        }
        Search::Nothing => searching_on(rate, mirrored, &window[..0], came),
        Search::Several => searching_on(rate, mirrored, &window[..0], came),
    }
}

// A step that found no block.
fn waits(acquisition: Acquisition, taken: usize) -> Step
    ensures { result ≡ waiting acquisition taken }
{
    Step {
        acquisition,
        taken,
        event: Event::Waits,
    }
}

// A step while it searches: the symbols are gathered, and a full window is searched.
fn search_step(state: Acquisition, piece: &[u8]) -> Step
    requires { (SearchReady state) × (state.came + length piece.now < 1152921504606846976) × (All (λ p. p < 81) piece.now) }
    ensures { (SearchesOn state piece.now result) × (AcquisitionReady result.acquisition) × (result.taken ≤ length piece.now) }
{
    let rate = state.rate;
    let mirrored = state.mirrored;
    let held = state.held;
    let came = state.came;
    let pending = state.pending;
    let space = 1632 - held;
    if piece.len() < space {
        let gathered = joined::<1632>(&pending[..held], piece);
        let total = held + piece.len();
        let more = searching_on(
            rate,
            mirrored,
            &gathered[..total],
            came + piece.len() as u64,
        );
        return waits(more, piece.len());
    }
    let window = joined::<1632>(&pending[..held], &piece[..space]);
    // The window is one that can be searched, so that no search is refused.
    let search = node_search::search_window(rate, &window).unwrap_or(Search::Nothing);
    let next = searched(rate, mirrored, came + space as u64, &window, search);
    waits(next, space)
}

// What is left where no block follows: the reading goes on, or it is over.
fn lost_reading(state: Acquisition, next: Reading, pending: &[u8], came: u64) -> Acquisition
    requires { length pending.now ≤ 1632 }
    ensures { result ≡ lost_reading state next pending.now came (ends_reading state.reading.sync.lock.locked state.reading.used) }
{
    let used = state.reading.used;
    if ends_reading(state.reading.sync.lock.locked, used) {
        return searching_on(
            state.rate,
            mirrored_next(state.mirrored, used),
            pending,
            came,
        );
    }
    reading_on(state.rate, state.mirrored, next, pending, came)
}

// What a step of a reading leaves, where the symbols behind those that it read are pending.
fn after_reading(state: Acquisition, step: ReadStep, pending: &[u8], came: u64) -> Acquisition
    requires { length pending.now ≤ 1632 }
    ensures { result ≡ after_reading state step pending.now came step.event }
{
    let next = step.reading;
    match step.event {
        Event::Waits => reading_on(state.rate, state.mirrored, next, pending, came),
        Event::Block(_) => reading_on(state.rate, state.mirrored, next, pending, came),
        Event::Lost => lost_reading(state, next, pending, came),
    }
}

// A step of a reading by symbols that are pending.
fn pending_step(state: Acquisition) -> Step
    requires { (ReadReady state) × (state.came < 1152921504606846976) × (0 < state.held) }
    ensures { (ReadsPending state result) × (AcquisitionReady result.acquisition) }
{
    let pending = state.pending;
    let held = state.held;
    let step = read(state.reading, &pending[..held]);
    let from = step.taken;
    let acquisition = after_reading(state, step, &pending[from..held], state.came);
    Step {
        acquisition,
        taken: 0,
        event: step.event,
    }
}

// A step of a reading by symbols of a piece.
fn piece_step(state: Acquisition, piece: &[u8]) -> Step
    requires { (ReadReady state) × (All (λ p. p < 81) piece.now) × (state.came + length piece.now < 1152921504606846976) × (state.held ≡ 0) }
    ensures { (ReadsPiece state piece.now result) × (AcquisitionReady result.acquisition) × (result.taken ≤ length piece.now) }
{
    let count = piece.len().min(1632);
    let step = read(state.reading, &piece[..count]);
    let taken = step.taken;
    let acquisition = after_reading(state, step, &piece[..0], state.came + taken as u64);
    Step {
        acquisition,
        taken,
        event: step.event,
    }
}

// The end of the symbols of a reading: the bits of the whole patterns that its runs hold are taken.
fn close_runs(reading: Reading) -> ReadStep
    requires { ReadingReady reading }
    ensures { ClosesReading reading result }
{
    let runs = reading.runs;
    let rate = runs.rate;
    let mut bits = [0u8; 1632];
    let closed = reader_stream::symbol_runs::close(runs, &mut bits);
    let count = closed.count;
    let opened = reader_stream::symbol_runs::open(rate);
    settle(reading, opened, 0, &bits[..count])
}

// What the last decisions of a reading mean: where no block follows and fewer bits are left than one has, the end has come.
fn last_event(found: Option<FoundBlock>, held: usize) -> Event
    ensures { result ≡ last_event found held }
{
    match found {
        Some(block) => Event::Block(block),
        None if held < 1632 => Event::Waits,
        None => Event::Lost,
    }
}

// The end of the bits of a reading: the next block of those that are left, if there is one.
fn close_blocks(reading: Reading) -> ReadStep
    requires { ReadingReady reading }
    ensures { ClosesBlocks reading result }
{
    let runs = reading.runs;
    let Ok(decided) = reading.sync.finish() else {
        unreachable!()
    };
    let found = block_found(
        runs.rate,
        reading.turn,
        reading.first,
        reading.used,
        decided,
    );
    let event = last_event(found, reading.sync.held);
    let more = used_by(decided);
    ReadStep {
        reading: Reading {
            turn: reading.turn,
            runs,
            sync: decided.sync,
            first: reading.first,
            used: reading.used + more,
        },
        taken: 0,
        event,
    }
}

// The last step: nothing is left to do.
fn over(acquisition: Acquisition, left: usize) -> EndStep
    ensures { result ≡ over_with acquisition left }
{
    EndStep {
        acquisition,
        event: Event::Waits,
        over: Some(left),
    }
}

// A step of the end that leaves a reading, or ends it.
fn goes_on(state: Acquisition, step: ReadStep) -> EndStep
    ensures { result ≡ proceeds state step }
{
    let acquisition = after_reading(state, step, &[], state.came);
    EndStep {
        acquisition,
        event: step.event,
        over: None,
    }
}

// The search that a reading leaves whose bits have ended.
fn ended(state: Acquisition) -> Acquisition
    ensures { result ≡ searching_on state.rate state.mirrored [] state.came }
{
    searching_on(state.rate, state.mirrored, &[], state.came)
}

// The end of a reading of which nothing is pending and no run holds a symbol.
fn end_blocks(state: Acquisition) -> EndStep
    requires { (ReadReady state) × (state.came < 1152921504606846976) }
    ensures { EndsBlocks state result }
{
    let step = close_blocks(state.reading);
    match step.event {
        Event::Waits => {
            let over_then = ended(state);
            over(over_then, state.reading.sync.held)
        }
        Event::Block(_) => goes_on(state, step),
        Event::Lost => {
            let acquisition = ended(state);
            EndStep {
                acquisition,
                event: Event::Lost,
                over: None,
            }
        }
    }
}

impl Acquisition {
    // Nothing has come.
    pub fn new(rate: u8) -> Acquisition
        requires { rate < 6 }
        ensures { (result ≡ fresh_acquisition rate) × (AcquisitionReady result) }
    {
        searching_on(rate, false, &[], 0)
    }

    // Takes symbols of a piece: those that fill the window, or those that complete a run, or all. While symbols are pending that a reading has not read, it
    // reads these and takes none.
    pub fn step(self, piece: &[u8]) -> Step
        requires { (AcquisitionReady self) × (All (λ p. p < 81) piece.now) × (self.came + length piece.now < 1152921504606846976) }
        ensures { (StepsAcquisition self piece.now result) × (AcquisitionReady result.acquisition) × (StepCounts self piece.now result) }
    {
        let held = self.held;
        match self.phase {
            Phase::Searches => search_step(self, piece),
            Phase::Reads => {
                if held > 0 {
                    return pending_step(self);
                }
                piece_step(self, piece)
            }
        }
    }

    // After the last piece, call after call until it is over: what is pending is read, then what the runs hold, and then the blocks of the bits that are left.
    pub fn end_step(self) -> EndStep
        requires { AcquisitionReady self }
        ensures { (EndsAcquisition self result) × (AcquisitionReady result.acquisition) × (EndCounts self result) }
    {
        let held = self.held;
        let count = self.reading.runs.count;
        match self.phase {
            Phase::Searches => over(self, 0),
            Phase::Reads => {
                if held > 0 {
                    let step = pending_step(self);
                    return EndStep {
                        acquisition: step.acquisition,
                        event: step.event,
                        over: None,
                    };
                }
                if count > 0 {
                    let step = close_runs(self.reading);
                    return goes_on(self, step);
                }
                end_blocks(self)
            }
        }
    }
}
