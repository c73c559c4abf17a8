// The lines that are told on standard error, each put at the front of a text.
ghost use Rattle.std.specs.Prelude.{length, ◌≡◌};
ghost use Rattle.report_lines.specs.Line.{Appended};
ghost use Rattle.reader_program.specs.Lines.{refusal_line, closing_lines};

use report_lines::{put_field, put_line};

// The place of the byte that is no symbol, and the answer.
pub fn refusal_line(place: u64, text: &mut [u8]) -> usize
    requires { length text.old ≡ 96 }
    ensures { Appended (refusal_line place) text.old text.new 0 result 96 }
{
    let at = put_field(b"symbol=", place, b' ', 0, text);
    put_line(b"answer=", 14, at, text)
}

// How many symbols are in no pattern, how many bits in no byte, and of points how many bytes in no point.
pub fn closing_lines(soft: bool, rest: usize, bits: usize, bytes: usize, text: &mut [u8]) -> usize
    requires { length text.old ≡ 96 }
    ensures { Appended (closing_lines soft rest bits bytes) text.old text.new 0 result 96 }
{
    let at = put_line(b"rest=", rest as u64, 0, text);
    let end = put_line(b"bits=", bits as u64, at, text);
    if soft {
        return put_line(b"bytes=", bytes as u64, end, text);
    }
    end
}
