// The lines that are told of a lock, each put at a place of a text: where it was found, where it was lost, and the end of the input. Places are counted in
// symbols, or in bits where decoded bits come.
// Inner: its functions may require what the crates above have tested. docs/ARCHITECTURE.md names the public surface.
#![tactic(auto)]

ghost use Rattle.std.specs.Prelude.{◌++◌, ◌+◌, ◌≤◌, length};
ghost use Rattle.report_lines.specs.Line.{Appended};
ghost use Rattle.lock_lines.specs.Lines.{place_text, found_text, lock_text, lost_text, closing_word, skipped_text, end_text};

use common::put;
use report_lines::{put_field, put_line};

// How many symbols or bits came before something.
fn put_place(bits: bool, place: u64, at: usize, text: &mut [u8]) -> usize
    requires { at + 28 ≤ length text.old }
    ensures { Appended (place_text bits place) text.old text.new at result (at + 28) }
{
    if bits {
        return put_field(b"bit=", place, b' ', at, text);
    }
    put_field(b"symbol=", place, b' ', at, text)
}

// The same behind the word that a line begins with.
fn put_start(word: &[u8], bits: bool, place: u64, at: usize, text: &mut [u8]) -> usize
    requires { at + length word.now + 28 ≤ length text.old }
    ensures { Appended (word.now ++ place_text bits place) text.old text.new at result (at + length word.now + 28) }
{
    put(word, at, text);
    put_place(bits, place, at + word.len(), text)
}

// How the symbols or the bits came: by which rate and turn, and where their patterns begin; or whether they are inverted, which is turn 2.
fn put_found(bits: bool, rate: u8, turn: u8, offset: u64, at: usize, text: &mut [u8]) -> usize
    requires { at + 80 ≤ length text.old }
    ensures { Appended (found_text bits rate turn offset) text.old text.new at result (at + 80) }
{
    if bits {
        return put_line(b"inverted=", (turn / 2) as u64, at, text);
    }
    let middle = put_field(b"rate=", rate as u64, b' ', at, text);
    let last = put_field(b"turn=", turn as u64, b' ', middle, text);
    put_line(b"offset=", offset, last, text)
}

// A lock was found.
pub fn put_lock(
    bits: bool,
    rate: u8,
    turn: u8,
    offset: u64,
    place: u64,
    at: usize,
    text: &mut [u8],
) -> usize
    requires { at + 113 ≤ length text.old }
    ensures { Appended (lock_text bits rate turn offset place) text.old text.new at result (at + 113) }
{
    let middle = put_start(b"lock ", bits, place, at, text);
    put_found(bits, rate, turn, offset, middle, text)
}

// A lock ended, and so many were skipped before it.
pub fn put_lost(bits: bool, place: u64, skipped: u64, at: usize, text: &mut [u8]) -> usize
    requires { at + 62 ≤ length text.old }
    ensures { Appended (lost_text bits place skipped) text.old text.new at result (at + 62) }
{
    let middle = put_start(b"lost ", bits, place, at, text);
    put_line(b"skipped=", skipped, middle, text)
}

// The word of the last line, and how many symbols or bits came in all.
fn put_came(bits: bool, found: bool, came: u64, at: usize, text: &mut [u8]) -> usize
    requires { at + 36 ≤ length text.old }
    ensures { Appended (closing_word found ++ place_text bits came) text.old text.new at result (at + 36) }
{
    if found {
        return put_start(b"end ", bits, came, at, text);
    }
    put_start(b"nothing ", bits, came, at, text)
}

// How many were skipped at last, and of points how many bytes came behind the last whole one.
fn put_skipped(bits: bool, skipped: u64, bytes: u64, at: usize, text: &mut [u8]) -> usize
    requires { at + 56 ≤ length text.old }
    ensures { Appended (skipped_text bits skipped bytes) text.old text.new at result (at + 56) }
{
    if bits {
        return put_line(b"skipped=", skipped, at, text);
    }
    let middle = put_field(b"skipped=", skipped, b' ', at, text);
    put_line(b"bytes=", bytes, middle, text)
}

// The input ended, and there was a lock or none.
pub fn put_end(
    bits: bool,
    found: bool,
    came: u64,
    skipped: u64,
    bytes: u64,
    at: usize,
    text: &mut [u8],
) -> usize
    requires { at + 92 ≤ length text.old }
    ensures { Appended (end_text bits found came skipped bytes) text.old text.new at result (at + 92) }
{
    let middle = put_came(bits, found, came, at, text);
    put_skipped(bits, skipped, bytes, middle, text)
}
