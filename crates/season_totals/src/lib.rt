// A season of pass reports: sums over them, and the worst of them by an exact comparison of fractions. The reports come one after another,
// in pieces of any length, and no more is held of them than the bytes of one that is not read yet.
// Of its public functions `product`, `below` and `read_season` require nothing. A season in progress is a part, for programs, and its functions
// require that it came of feeding a fresh one.
#![tactic(auto)]

ghost use Rattle.std.specs.Prelude.{◌≡◌, true, Err, ◌++◌, ◌+◌, ◌*◌, ◌≤◌, ◌<◌, ltb, length, get_or, take};
ghost use Rattle.answer.specs.Number.{answered, given_or};
ghost use Rattle.report_lines.specs.Line.{Appended};
ghost use Rattle.report.specs.Text.{fits};
ghost use Rattle.season_totals.specs.Totals.{wide, zero_totals, accepted, beats, counted_report, TotalsFit};
ghost use Rattle.season_totals.specs.Season.{Seasons, read_text};
ghost use Rattle.season_totals.specs.Progress.{fresh_season, SeasonCame, FeedsSeason, Finishes, ReportsBegun, CountsRest, TakesUnread};

use answer::Refusal;
use report::Report;
use report_lines::put_line;

// How many reports a season may have.
const MOST: u64 = 4096;

// The product of two numbers in two limbs, the lower first: by four products of halves of 32 bits, none of which wraps with what is carried to it.
pub fn product(a: u64, b: u64) -> [u64; 2]
    ensures { wide result ≡ a * b }
{
    let a0 = a % 4294967296;
    let a1 = a / 4294967296;
    let b0 = b % 4294967296;
    let b1 = b / 4294967296;
    let low = a0 * b0;
    let middle = a1 * b0 + low / 4294967296;
    let other = a0 * b1 + middle % 4294967296;
    let high = a1 * b1 + middle / 4294967296 + other / 4294967296;
    [other % 4294967296 * 4294967296 + low % 4294967296, high]
}

// The same of the limbs by themselves, low and high of the one, bottom and top of the other: of parameters the proof knows the ranges.
fn limbs_below(low: u64, high: u64, bottom: u64, top: u64) -> bool
    ensures { result ≡ ltb (low + 18446744073709551616 * high) (bottom + 18446744073709551616 * top) }
{
    if high < top {
        return true;
    }
    if top < high {
        return false;
    }
    low < bottom
}

// Whether a number of two limbs is less than another.
pub fn below(a: [u64; 2], b: [u64; 2]) -> bool
    ensures { result ≡ ltb (wide a) (wide b) }
{
    limbs_below(a[0], a[1], b[0], b[1])
}

fn accepted_of(report: Report) -> u64
    requires { fits report ≡ true }
    ensures { result ≡ accepted report }
{
    report.delivered + report.waiting + report.outofstep
}

// Whether a report is worse than the worst so far.
fn is_worse(totals: [u64; 7], report: Report) -> bool
    requires { fits report ≡ true }
    ensures { result ≡ beats totals report }
{
    let own = accepted_of(report);
    if own == 0 {
        return false;
    }
    let worst = totals[6];
    if worst == 0 {
        return true;
    }
    below(product(totals[5], own), product(report.changed, worst))
}

// The totals with a report more: passes, taken, lost, changed, the number of the worst, and its changed and accepted.
fn count_report(totals: [u64; 7], report: Report) -> [u64; 7]
    requires { TotalsFit totals report }
    ensures { result ≡ counted_report totals report }
{
    let passes = totals[0] + 1;
    let taken = totals[1] + report.taken;
    let lost = totals[2] + report.lost;
    let changed = totals[3] + report.changed;
    if is_worse(totals, report) {
        let own = report.changed;
        let of = accepted_of(report);
        return [passes, taken, lost, changed, passes, own, of];
    }
    [
        passes, taken, lost, changed, totals[4], totals[5], totals[6],
    ]
}

// A season in progress: the first refusal, or that there was none; the totals of the reports that were read; and the bytes after them, at
// the front of a buffer that is longer than any report, since no memory is taken for them.
#[derive(Clone, Copy)]
pub struct Season {
    pub answer: Result<(), Refusal>,
    pub totals: [u64; 7],
    pub pending: [u8; 320],
    pub held: usize,
}

// Reads the reports of a text that stands after those counted.
fn count_rest(counted: [u64; 7], text: &[u8]) -> Result<[u64; 7], Refusal>
    requires { ReportsBegun counted text.now }
    ensures { CountsRest counted text.now result }
{
    let mut totals = counted;
    let mut at: usize = 0;
    // A `while`: each report says where the next one begins.
    while at < text.len() {
        if totals[0] == MOST {
            return Err(Refusal::TooManyReports);
        }
        let read = report::read_front(text, at);
        let report = read.report?;
        totals = count_report(totals, report);
        at = read.end;
    }
    Ok(totals)
}

// The first bytes of a buffer, and others after them.
fn appended(pending: [u8; 320], held: usize, bytes: &[u8]) -> [u8; 320]
    requires { held + length bytes.now ≤ 320 }
    ensures { take (held + length bytes.now) result ≡ take held pending ++ bytes.now }
{
    let mut buffer = pending;
    common::put(bytes, held, &mut buffer);
    buffer
}

// A season that ended with a refusal.
fn stopped(refusal: Refusal) -> Season
    ensures { (result.answer ≡ Err refusal) × (result.held ≡ 0) }
{
    Season {
        answer: Err(refusal),
        totals: [0u64; 7],
        pending: [0u8; 320],
        held: 0,
    }
}

// Reads the report at the front of a full buffer. What it is does not depend on what still comes, since no report is longer than the buffer.
fn take_front(totals: [u64; 7], buffer: [u8; 320]) -> Season
    requires { (ReportsBegun totals buffer) × (get_or totals 0 0 < 4096) }
    ensures { TakesUnread totals buffer result }
{
    let read = report::read_front(&buffer, 0);
    let report = match read.report {
        Ok(report) => report,
        Err(refusal) => return stopped(refusal),
    };
    let end = read.end;
    Season {
        answer: Ok(()),
        totals: count_report(totals, report),
        pending: appended([0u8; 320], 0, &buffer[end..]),
        held: 320 - end,
    }
}

// Takes bytes, at least one, that fit into the buffer.
fn take_part(season: Season, part: &[u8]) -> Season
    requires { (SeasonCame season) × (0 < length part.now) × (season.held + length part.now ≤ 320) }
    ensures { FeedsSeason season part.now result }
{
    if season.answer.is_err() {
        return season;
    }
    if season.totals[0] == MOST {
        return stopped(Refusal::TooManyReports);
    }
    let buffer = appended(season.pending, season.held, part);
    let filled = season.held + part.len();
    if filled < 320 {
        return Season {
            answer: Ok(()),
            totals: season.totals,
            pending: buffer,
            held: filled,
        };
    }
    take_front(season.totals, buffer)
}

impl Season {
    // No report, and no byte.
    pub fn new() -> Season
        ensures { result ≡ fresh_season }
    {
        Season {
            answer: Ok(()),
            totals: [0u64; 7],
            pending: [0u8; 320],
            held: 0,
        }
    }

    // Takes a piece of the reports, of any length.
    pub fn feed(self, piece: &[u8]) -> Season
        requires { SeasonCame self }
        ensures { FeedsSeason self piece.now result }
    {
        let mut season = self;
        let mut at: usize = 0;
        // A `while`: a part is as long as the buffer has room for.
        while at < piece.len() {
            let end = at + (320 - season.held).min(piece.len() - at);
            season = take_part(season, &piece[at..end]);
            at = end;
        }
        season
    }

    // The season of all that came.
    pub fn finish(self) -> Result<[u64; 7], Refusal>
        requires { SeasonCame self }
        ensures { Finishes self result }
    {
        self.answer?;
        count_rest(self.totals, &self.pending[..self.held])
    }
}

// The season of a text.
pub fn read_season(text: &[u8]) -> Result<[u64; 7], Refusal>
    ensures { Seasons text.now (answered result) (given_or zero_totals (λ t. t) result) }
{
    Season::new().feed(text).finish()
}

// Writes what is printed of a season to the front of a text of 160 bytes, which is more than it has. Gives its length.
pub fn compose(read: Result<[u64; 7], Refusal>, text: &mut [u8]) -> usize
    requires { length text.old ≡ 160 }
    ensures { Appended (read_text read) text.old text.new 0 result 160 }
{
    match read {
        Ok(totals) => {
            let at = put_line(b"passes=", totals[0], 0, text);
            let at = put_line(b"taken=", totals[1], at, text);
            let at = put_line(b"lost=", totals[2], at, text);
            let at = put_line(b"changed=", totals[3], at, text);
            put_line(b"worst=", totals[4], at, text)
        }
        Err(refusal) => put_line(b"", u64::from(refusal.number()), 0, text),
    }
}
