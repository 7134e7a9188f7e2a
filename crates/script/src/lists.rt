// Lists of numbers.
ghost use Rattle.std.specs.Prelude.{ℕ, ◌≡◌, ◌<◌, ◌≤◌, List, [], ◌∷◌, ◌++◌, length, take};
ghost use Rattle.script.specs.declared.words.TheConstants.{MOST_WORDS};

use crate::words::MOST_WORDS;
use std::marker::Model;

// Numbers, as many as a line has words or fewer. The room is fixed, so that none runs out of memory.
#[derive(Drop)]
pub struct Numbers {
    cells: [u32; MOST_WORDS],
    length: usize,
}

impl Model for Numbers {
    ghost Value = { List ℕ };

    ghost view = { λ n. take n.length n.cells };

    ghost invariant = { λ n. n.length ≤ MOST_WORDS };
}

impl Numbers {
    pub fn new() -> Self
        ensures { result ≡ [] }
    {
        Numbers {
            cells: [0; MOST_WORDS],
            length: 0,
        }
    }

    // Adds one behind them, where there is room.
    pub fn push(&mut self, number: u32)
        ensures room { length self.old < MOST_WORDS → self.new ≡ self.old ++ number ∷ [] }
        ensures full { MOST_WORDS ≤ length self.old → self.new ≡ self.old }
    {
        if self.length < MOST_WORDS {
            self.cells[self.length] = number;
            self.length += 1;
        }
    }

    pub fn as_slice(&self) -> &[u32]
        ensures value { result.now ≡ self.now }
        ensures bound { length result.now ≤ MOST_WORDS }
    {
        &self.cells[..self.length]
    }
}
