// The words of a command line that name a mode of the inner code.
// Inner: a part of the programs. docs/ARCHITECTURE.md names the public surface.
#![tactic(auto)]

ghost use Rattle.std.specs.Prelude.{◌≡◌, ◌<◌, true, is_some, unwrap_or};
ghost use Rattle.program_io.specs.Words.{word_bytes};
ghost use Rattle.rate_words.specs.Words.{mode_named};

use program_io::Word;

// The mode that a word names. Not every mode that has a name is sent, and not every one is read.
pub fn mode_of(word: Word) -> Option<u8>
    ensures names { unwrap_or result 6 ≡ mode_named (word_bytes word) }
    ensures known { is_some result ≡ true → unwrap_or result 6 < 6 }
{
    if word.is(b"0") || word.is(b"1/2") {
        return Some(0);
    }
    if word.is(b"1") || word.is(b"2/3") {
        return Some(1);
    }
    if word.is(b"2") || word.is(b"3/4") {
        return Some(2);
    }
    if word.is(b"3") || word.is(b"5/6") {
        return Some(3);
    }
    if word.is(b"4") || word.is(b"7/8") {
        return Some(4);
    }
    if word.is(b"5") {
        return Some(5);
    }
    None
}
