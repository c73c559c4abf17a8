// Pass reports in both forms: written, read, and moved from one form to the other.
// Of its public functions only `read_front` has a requires: it is a part, for readers of many reports.
#![tactic(auto)]

ghost use Rattle.std.specs.Prelude.{◌≡◌, true, [], ◌+◌, ◌≤◌, ◌<◌, length, drop, is_some};
ghost use Rattle.answer.specs.Number.{answered, given_or};
ghost use Rattle.report_lines.specs.Line.{line_text, Appended};
ghost use Rattle.report_lines.specs.Reading.{found_or, LineIs};
ghost use Rattle.report.specs.Text.{row, form_of, fields, lines_text, bits_text, bits_within, numbers_within, report_text, fits, sums, write_number, WritesText};
ghost use Rattle.report.specs.Read.{blank, ReadsReport, ReadsWhole};
ghost use Rattle.report.specs.Move.{movable, moved_bits, Moves};
ghost use Rattle.report.specs.declared.Bits.TheVariants.{Absent};
ghost use Rattle.report.specs.Steps.{RowsRead, BitsIs, Front};

use answer::Refusal;
use report_lines::LineRead;

// The changed bits: absent from form 1; in form 2 a number, or a dash where they are not known. So the form follows from them.
#[derive(Clone, Copy, PartialEq, Eq)]
pub enum Bits {
    Absent,
    Dash,
    Number(u64),
}

// The counts of a pass of the receiver.
#[derive(Clone, Copy, PartialEq, Eq)]
pub struct Report {
    pub taken: u64,
    pub filling: u64,
    pub delivered: u64,
    pub lost: u64,
    pub waiting: u64,
    pub outofstep: u64,
    pub changed: u64,
    pub bits: Bits,
    pub rest: u64,
}

// A row of the table of the lines: a key with its equals sign, and the largest number that its line may have.
#[derive(Clone, Copy)]
struct TableRow {
    key: &'static [u8],
    limit: u64,
}

// A row is a number below 10: a loop goes over the first eight, and their values fill an array.
#[tactic(auto, unfolding(crate::specs::Text::row))]
fn table_row(n: usize) -> TableRow
    requires { n < 10 }
    ensures { (result.key.now ≡ (row n).key) × (result.limit ≡ (row n).limit) }
{
    match n {
        0 => TableRow {
            key: b"form=",
            limit: 2,
        },
        1 => TableRow {
            key: b"taken=",
            limit: 4294967295,
        },
        2 => TableRow {
            key: b"filling=",
            limit: 4294967295,
        },
        3 => TableRow {
            key: b"delivered=",
            limit: 4294967295,
        },
        4 => TableRow {
            key: b"lost=",
            limit: 4294967295,
        },
        5 => TableRow {
            key: b"waiting=",
            limit: 4294967295,
        },
        6 => TableRow {
            key: b"outofstep=",
            limit: 4294967295,
        },
        7 => TableRow {
            key: b"changed=",
            limit: 68719476720,
        },
        8 => TableRow {
            key: b"bits=",
            limit: 549755813760,
        },
        _ => TableRow {
            key: b"rest=",
            limit: 203,
        },
    }
}

const BITS_ROW: usize = 8;

const REST_ROW: usize = 9;

fn form_of(bits: Bits) -> u64
    ensures { result ≡ form_of bits }
{
    match bits {
        Bits::Absent => 1,
        Bits::Dash | Bits::Number(_) => 2,
    }
}

// Reads the line of a row of the table. A place in the text is a number with its bound, since a reader tells where the report ends.
fn read_row(text: &[u8], at: usize, n: usize) -> Option<LineRead>
    requires { (at ≤ length text.now) × (n < 10) }
    ensures { LineIs (row n).key text.now at (row n).limit (is_some result) (found_or 0 (λ l. l.value) result) (found_or 0 (λ l. l.end) result) }
{
    let row = table_row(n);
    report_lines::read_line(text, at, row.key, row.limit)
}

// The first eight numbers, and the place after their lines.
#[derive(Clone, Copy)]
struct FirstRows {
    values: [u64; 8],
    end: usize,
}

// Reads the first eight lines.
fn read_rows(text: &[u8], at: usize) -> Option<FirstRows>
    requires { at ≤ length text.now }
    ensures { RowsRead text.now at (is_some result) (found_or [] (λ r. r.values) result) (found_or at (λ r. r.end) result) }
{
    let mut values = [0u64; 8];
    let mut place = at;
    for i in 0..8 {
        let line = read_row(text, place, i)?;
        values[i] = line.value;
        place = line.end;
    }
    Some(FirstRows { values, end: place })
}

// The bits, and the place after their line.
#[derive(Clone, Copy)]
struct BitsRead {
    bits: Bits,
    end: usize,
}

// Reads the line of the bits, which form 1 does not have.
fn read_bits(text: &[u8], at: usize, form: u64) -> Option<BitsRead>
    requires { at ≤ length text.now }
    ensures { BitsIs text.now at form (is_some result) (found_or Absent (λ b. b.bits) result) (found_or at (λ b. b.end) result) }
{
    if form == 1 {
        return Some(BitsRead {
            bits: Bits::Absent,
            end: at,
        });
    }
    if form != 2 {
        return None;
    }
    if report_lines::matches(text, at, b"bits=-\n") {
        return Some(BitsRead {
            bits: Bits::Dash,
            end: at + 7,
        });
    }
    let line = read_row(text, at, BITS_ROW)?;
    Some(BitsRead {
        bits: Bits::Number(line.value),
        end: line.end,
    })
}

// A report, whatever its sums are, and the place after its lines.
#[derive(Clone, Copy)]
struct LinesRead {
    report: Report,
    end: usize,
}

// Reads the lines of a report, whatever its sums are.
fn read_lines(text: &[u8], at: usize) -> Option<LinesRead>
    requires { at ≤ length text.now }
    ensures { Front text.now at (is_some result) (found_or blank (λ l. l.report) result) (found_or 0 (λ l. l.end) result) }
{
    let rows = read_rows(text, at)?;
    let [
        form,
        taken,
        filling,
        delivered,
        lost,
        waiting,
        outofstep,
        changed,
    ] = rows.values;
    let bits = read_bits(text, rows.end, form)?;
    let rest = read_row(text, bits.end, REST_ROW)?;
    Some(LinesRead {
        report: Report {
            taken,
            filling,
            delivered,
            lost,
            waiting,
            outofstep,
            changed,
            bits: bits.bits,
            rest: rest.value,
        },
        end: rest.end,
    })
}

// Whether the counts of a report add up.
fn sums_right(report: Report) -> bool
    requires { fits report ≡ true }
    ensures { result ≡ sums report }
{
    let sum = report.filling + report.delivered + report.lost + report.waiting + report.outofstep;
    sum == report.taken && report.filling == report.taken.min(11)
}

// The report that was read, or why there is none, and the place after it; where none stands there, the place where it was to begin. The place
// stands beside the answer, since there is one too where the sums of the report are wrong.
#[derive(Clone, Copy)]
pub struct FrontRead {
    pub report: Result<Report, Refusal>,
    pub end: usize,
}

// Reads the report that a text has from a place on; more may follow.
pub fn read_front(text: &[u8], at: usize) -> FrontRead
    requires { at ≤ length text.now }
    ensures { ReadsReport (drop at text.now) (answered result.report) (given_or blank (λ r. r) result.report) (drop result.end text.now)
        × (result.end ≤ length text.now)
        × (answered result.report ≡ 17 → result.end ≡ at) }
{
    let Some(lines) = read_lines(text, at) else {
        return FrontRead {
            report: Err(Refusal::NotReport),
            end: at,
        };
    };
    if !sums_right(lines.report) {
        return FrontRead {
            report: Err(Refusal::WrongSums),
            end: lines.end,
        };
    }
    FrontRead {
        report: Ok(lines.report),
        end: lines.end,
    }
}

// Reads a text that is to be one report and nothing else: more text after it is 17, whatever its sums are.
pub fn read_report(text: &[u8]) -> Result<Report, Refusal>
    ensures { ReadsWhole text.now (answered result) (given_or blank (λ r. r) result) }
{
    let read = read_front(text, 0);
    let longer = read.end != text.len();
    if longer {
        return Err(Refusal::NotReport);
    }
    read.report
}

// Writes the line of a row of the table.
fn put_row(n: usize, value: u64, at: usize, output: &mut [u8]) -> usize
    requires { (n < 10) × (at + 31 ≤ length output.old) }
    ensures { Appended (line_text (row n).key value) output.old output.new at result (at + 31) }
{
    report_lines::put_line(table_row(n).key, value, at, output)
}

// Writes the first eight lines at the front of the output.
fn put_rows(values: [u64; 8], output: &mut [u8]) -> usize
    requires { length output.old ≡ 320 }
    ensures { Appended (lines_text 8 values) output.old output.new 0 result 248 }
{
    let mut at: usize = 0;
    for i in 0..8 {
        at = put_row(i, values[i], at, output);
    }
    at
}

fn put_bits(bits: Bits, at: usize, output: &mut [u8]) -> usize
    requires { (length output.old ≡ 320) × (at ≤ 248) }
    ensures { Appended (bits_text bits) output.old output.new at result (at + 31) }
{
    match bits {
        Bits::Absent => at,
        Bits::Dash => {
            common::put(b"bits=-\n", at, output);
            at + 7
        }
        Bits::Number(n) => put_row(BITS_ROW, n, at, output),
    }
}

// The numbers of the first eight lines.
fn numbers(report: Report) -> [u64; 8]
    ensures { result ≡ fields report }
{
    [
        form_of(report.bits),
        report.taken,
        report.filling,
        report.delivered,
        report.lost,
        report.waiting,
        report.outofstep,
        report.changed,
    ]
}

// Writes a report into a text of 320 bytes, which is more than any report has. Gives its length.
fn compose(report: Report, text: &mut [u8]) -> usize
    requires { length text.old ≡ 320 }
    ensures { Appended (report_text report) text.old text.new 0 result 310 }
{
    let at = put_rows(numbers(report), text);
    let at = put_bits(report.bits, at, text);
    put_row(REST_ROW, report.rest, at, text)
}

// Whether the first eight numbers are within their limits.
fn counts_fit(values: [u64; 8]) -> bool
    ensures { result ≡ numbers_within 8 values }
{
    for i in 0..8 {
        if table_row(i).limit < values[i] {
            return false;
        }
    }
    true
}

fn bits_fit(bits: Bits) -> bool
    ensures { result ≡ bits_within bits }
{
    match bits {
        Bits::Absent | Bits::Dash => true,
        Bits::Number(n) => n <= table_row(BITS_ROW).limit,
    }
}

fn report_fits(report: Report) -> bool
    ensures { result ≡ fits report }
{
    if !counts_fit(numbers(report)) {
        return false;
    }
    if !bits_fit(report.bits) {
        return false;
    }
    report.rest <= table_row(REST_ROW).limit
}

// Writes a report in its form. Gives how many bytes were written.
pub fn write_report(report: Report, output: &mut [u8]) -> Result<usize, Refusal>
    ensures { WritesText (write_number report output.old) (report_text report) output.old (answered result) (given_or 0 (λ n. n) result) output.new }
{
    if !report_fits(report) {
        return Err(Refusal::NotReport);
    }
    if !sums_right(report) {
        return Err(Refusal::WrongSums);
    }
    let mut text = [0u8; 320];
    let n = compose(report, &mut text);
    if output.len() < n {
        return Err(Refusal::OutputLength);
    }
    common::put(&text[..n], 0, output);
    Ok(n)
}

fn can_move(bits: Bits, form: u64) -> bool
    ensures { result ≡ movable bits form }
{
    match bits {
        Bits::Absent => form == 2,
        Bits::Dash => form == 1,
        Bits::Number(_) => false,
    }
}

fn other_bits(bits: Bits) -> Bits
    ensures { result ≡ moved_bits bits }
{
    match bits {
        Bits::Absent => Bits::Dash,
        Bits::Dash => Bits::Absent,
        Bits::Number(n) => Bits::Number(n),
    }
}

// Reads the report of a text, and writes it in the form wanted, 1 or 2, where it is in the other. Gives how many bytes were written.
pub fn move_report(text: &[u8], form: u64, output: &mut [u8]) -> Result<usize, Refusal>
    ensures { Moves text.now form output.old (answered result) (given_or 0 (λ n. n) result) output.new }
{
    let report = read_report(text)?;
    if !can_move(report.bits, form) {
        return Err(Refusal::FormKept);
    }
    let next = Report {
        bits: other_bits(report.bits),
        ..report
    };
    write_report(next, output)
}
