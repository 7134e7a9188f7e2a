// The line that is being read.
ghost use Rattle.std.specs.Prelude.{◌≤◌};
ghost use Rattle.script.specs.declared.words.TheConstants.{MOST_BYTES};

use script::words::MOST_BYTES;

// What a first line may begin with: a byte order mark.
const MARK: &[u8] = b"\xEF\xBB\xBF";

// Its number from 1, the bytes of it that are kept, and whether more came than are kept.
#[derive(Drop)]
pub struct Line {
    number: u64,
    bytes: [u8; MOST_BYTES],
    kept: usize,
    is_long: bool,
    ghost fits: { kept ≤ MOST_BYTES },
}

impl Line {
    pub fn first() -> Self {
        Line {
            number: 1,
            bytes: [0; MOST_BYTES],
            kept: 0,
            is_long: false,
        }
    }

    pub fn number(&self) -> u64 {
        self.number
    }

    pub fn is_long(&self) -> bool {
        self.is_long
    }

    pub fn is_empty(&self) -> bool {
        self.kept == 0
    }

    // The bytes that are kept; no mark is one of them.
    pub fn text(&self) -> &[u8] {
        let kept = &self.bytes[..self.kept];
        if self.number == 1 {
            kept.strip_prefix(MARK).unwrap_or(kept)
        } else {
            kept
        }
    }

    // Keeps one more byte, if there is room.
    pub fn keep(&mut self, byte: u8) {
        if self.kept < MOST_BYTES {
            self.bytes[self.kept] = byte;
            self.kept += 1;
        } else {
            self.is_long = true;
        }
    }

    // Goes on to the line behind it, of which nothing is read.
    pub fn end(&mut self) {
        self.number = self.number.wrapping_add(1);
        self.kept = 0;
        self.is_long = false;
    }
}
