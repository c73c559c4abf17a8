// The lines that dvbs_send tells on standard error, each put at the front of a text.
ghost use Rattle.std.specs.Prelude.{◌≡◌, length};
ghost use Rattle.report_lines.specs.Line.{Appended};
ghost use Rattle.dvbs_send.specs.Lines.{replaced_line, counts_line};

use report_lines::put_field;

// The number of a packet that was replaced, and of the answer that says so.
pub fn replaced_line(packet: u64, number: u64, text: &mut [u8]) -> usize
    requires { length text.old ≡ 96 }
    ensures { Appended (replaced_line packet number) text.old text.new 0 result 96 }
{
    let at = put_field(b"packet=", packet, b' ', 0, text);
    put_field(b"answer=", number, b'\n', at, text)
}

// How many packets were sent, how many of them were replaced, and how many bytes came after the last.
pub fn counts_line(packets: u64, replaced: u64, rest: u64, text: &mut [u8]) -> usize
    requires { length text.old ≡ 96 }
    ensures { Appended (counts_line packets replaced rest) text.old text.new 0 result 96 }
{
    let at = put_field(b"packets=", packets, b' ', 0, text);
    let at = put_field(b"replaced=", replaced, b' ', at, text);
    put_field(b"rest=", rest, b'\n', at, text)
}
