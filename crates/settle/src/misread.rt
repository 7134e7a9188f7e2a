// What is said of a line that is no call: its number, the word that is wrong, and what was expected.
use crate::line::Line;
use script::forms::Misheard;
use script::words;
use std::io::{self, Write};

// The most bytes of a word that are repeated.
const MOST_REPEATED: usize = 40;

// A word of a line between quotation marks; a long one breaks off.
fn say_word<W: Write>(out: &mut W, line: &Line, place: usize) -> io::Result<()> {
    let word = words::find(line.text(), place);
    out.write_all(b"\"")?;
    match word.split_at_checked(MOST_REPEATED) {
        Some((repeated, left)) if !left.is_empty() => {
            out.write_all(repeated)?;
            out.write_all(b"..")?;
        }
        _ => out.write_all(word)?,
    }
    out.write_all(b"\"")
}

// The answer to a line that cannot be read. Its words are counted from 1 with the call's name.
pub fn say<W: Write>(out: &mut W, line: &Line, misheard: Misheard) -> io::Result<()> {
    write!(out, "bad line {}: ", line.number())?;
    match misheard {
        Misheard::NoSuchCall => {
            say_word(out, line, 0)?;
            writeln!(out, " is no call, see help")
        }
        Misheard::TooFew(call) => writeln!(out, "too few words for {call}"),
        Misheard::TooMany(call) => writeln!(out, "too many words for {call}"),
        Misheard::Wrong { place, expected } => {
            write!(out, "word {}, ", place.wrapping_add(1))?;
            say_word(out, line, place)?;
            writeln!(out, ", {expected}")
        }
    }
}

// The answer to a line of which too much came.
pub fn say_long<W: Write>(out: &mut W, line: &Line) -> io::Result<()> {
    writeln!(out, "bad line {}: longer than 16,384 bytes", line.number())
}
