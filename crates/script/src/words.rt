// The words of a line. A comment ends it.
use crate::names::{self, Call, NodeKind, RequirementKind};

// The most bytes that a line has.
pub const MOST_BYTES: usize = 16_384;

// The most words that a line has, since a blank stands between any two.
pub const MOST_WORDS: usize = MOST_BYTES / 2;

// The most that the digits of a decimal fraction are as a number. This one and those below it are f32s, and so is each power of ten up to that
// of nine places: one division then gives the float that is nearest to the fraction.
const MOST_DIGITS: u32 = 16_777_216;

// The most places: the power of ten is a u32 too.
const MOST_PLACES: usize = 9;

// A decimal fraction: the number that its digits are, and the power of ten that divides it.
#[derive(Clone, Copy, PartialEq, Eq)]
pub struct Fraction {
    pub digits: u32,
    pub divisor: u32,
}

#[derive(Clone, Copy, PartialEq, Eq)]
pub enum Word {
    // None of the others.
    Unknown,
    Number(u32),
    // How many of the digits stand behind the point, and the number that all are. In this order a word takes eight bytes.
    Fraction { places: u8, digits: u32 },
    Semicolon,
    Dash,
    None,
    Requirement(RequirementKind),
    Node(NodeKind),
    // What may be given a name, as a union may.
    Thing,
    Call(Call),
}

fn is_blank(byte: &u8) -> bool {
    matches!(*byte, b' ' | b'\t' | b'\r')
}

// A number with one more digit, if it is a u32.
fn with_digit(number: u32, byte: u8) -> Option<u32> {
    let digit = char::from(byte).to_digit(10)?;
    number.checked_mul(10)?.checked_add(digit)
}

// A number with more digits.
fn with_digits(number: u32, digits: &[u8]) -> Option<u32> {
    digits
        .iter()
        .try_fold(number, |number, byte| with_digit(number, *byte))
}

// A fraction of these digits before its point and these places behind it.
fn fraction_of(whole: &[u8], places: &[u8]) -> Option<Word> {
    let digits = with_digits(with_digits(0, whole)?, places)?;
    let count = places.len();
    if digits <= MOST_DIGITS && count <= MOST_PLACES {
        let places = count as u8;
        Some(Word::Fraction { places, digits })
    } else {
        None
    }
}

// A word that begins with a digit: a u32, or a fraction where it has a point.
fn decimal(bytes: &[u8]) -> Option<Word> {
    match bytes.iter().position(|byte| *byte == b'.') {
        Some(point) => fraction_of(&bytes[..point], &bytes[point + 1..]),
        None => with_digits(0, bytes).map(Word::Number),
    }
}

// The word of these bytes.
fn word_of(bytes: &[u8]) -> Word {
    match bytes {
        [b'0'..=b'9', ..] => decimal(bytes).unwrap_or(Word::Unknown),
        _ => names::word_named(bytes),
    }
}

// The words of a line's bytes before its comment, in the room that is lent for them.
pub fn scan<'a>(bytes: &[u8], room: &'a mut [Word; MOST_WORDS]) -> &'a [Word] {
    let mut count = 0;
    for text in bytes.split(is_blank) {
        match text {
            [] => {}
            [b'#', ..] => break,
            _ => {
                if count < MOST_WORDS {
                    room[count] = word_of(text);
                    count += 1;
                }
            }
        }
    }
    &room[..count]
}

// The bytes of word `wanted` of a line; what is behind the last one is empty.
pub fn find(bytes: &[u8], wanted: usize) -> &[u8] {
    bytes
        .split(is_blank)
        .filter(|text| !text.is_empty())
        .nth(wanted)
        .unwrap_or(&[])
}
