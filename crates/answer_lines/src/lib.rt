// The lines that programs tell about a block: one put at the start of an output, or the list of what to ask for again at a place of a text.
// Inner: its functions may require what the crates above have tested. docs/ARCHITECTURE.md names the public surface.
#![tactic(auto)]

ghost use Rattle.std.specs.Prelude.{◌+◌, ◌*◌, ◌≤◌, length, take};
ghost use Rattle.report_lines.specs.Line.{Appended};
ghost use Rattle.answer_lines.specs.Lines.{refusal_text, block_text, entry_text, list_text};

// At which block there was a refusal, and which.
pub fn refusal_line(block: u64, number: u64, output: &mut [u8]) -> usize
    requires { 96 ≤ length output.old }
    ensures { Appended (refusal_text block number) output.old output.new 0 result 96 }
{
    let at = report_lines::put_field(b"block=", block, b' ', 0, output);
    report_lines::put_field(b"answer=", number, b'\n', at, output)
}

// What was answered for a block, and how many bytes and bits of it were changed.
pub fn block_line(number: u64, changed: u64, bits: u64, output: &mut [u8]) -> usize
    requires { 96 ≤ length output.old }
    ensures { Appended (block_text number changed bits) output.old output.new 0 result 96 }
{
    let at = report_lines::put_field(b"answer=", number, b' ', 0, output);
    let next = report_lines::put_field(b"changed=", changed, b' ', at, output);
    report_lines::put_field(b"bits=", bits, b'\n', next, output)
}

// Writes a line of the list, as crate losses has it, as text at a place. Gives the place after it.
fn put_entry(line: u64, at: usize, text: &mut [u8]) -> usize
    requires { at + 64 ≤ length text.old }
    ensures { Appended (entry_text line) text.old text.new at result (at + 64) }
{
    let answer = line % 16;
    let middle = report_lines::put_field(b"block=", line / 16, b' ', at, text);
    if answer == 0 {
        return report_lines::put_line(b"doubt=", 1, middle, text);
    }
    report_lines::put_line(b"answer=", answer, middle, text)
}

// Writes so many lines of the list as text at a place. Gives the place after them.
pub fn put_list(lines: &[u64], count: usize, at: usize, text: &mut [u8]) -> usize
    requires { (count ≤ length lines.now) × (at + 64 * count ≤ length text.old) }
    ensures { Appended (list_text (take count lines.now)) text.old text.new at result (at + 64 * count) }
{
    let mut end = at;
    for i in 0..count {
        end = put_entry(lines[i], end, text);
    }
    end
}
