// How refusals and lists are written in answer.
ghost use Rattle.std.specs.Prelude.{◌≡◌, ℕ};
ghost use Rattle.store.specs.Refusals.{number};

use std::fmt;
use std::io::{self, Write};
use store::Refusal;

// What says by which number a call was refused: a refusal, or the number itself.
pub trait RefusedBy: Copy {
    ghost told: { Self → ℕ };

    fn number(self) -> u32
        ensures { result ≡ told self };
}

impl RefusedBy for Refusal {
    ghost told = { number };

    fn number(self) -> u32 {
        Refusal::number(self)
    }
}

// Any number, as a caller in C has it.
impl RefusedBy for u32 {
    ghost told = { λ n. n };

    fn number(self) -> u32 {
        self
    }
}

pub fn refused<W: Write, R: RefusedBy>(out: &mut W, refusal: R) -> io::Result<()> {
    writeln!(out, "refused {}", refusal.number())
}

// Lists: list j is the next lengths[j] cells.
#[derive(Clone, Copy)]
pub struct Lists<'a> {
    pub lengths: &'a [u32],
    pub cells: &'a [u32],
}

// A blank stands before each cell, and ` ;` between two lists. An empty list is a blank, unless it ends the line.
impl fmt::Display for Lists<'_> {
    fn fmt<W: fmt::Write>(&self, f: &mut fmt::Formatter<W>) -> fmt::Result {
        let mut left = self.cells;
        for (j, length) in self.lengths.iter().enumerate() {
            let n = store::wide(*length).min(left.len());
            let (list, behind) = left.split_at(n);
            if 0 < j {
                write!(f, " ;")?;
            }
            if *length == 0 && j + 1 < self.lengths.len() {
                write!(f, " ")?;
            }
            for cell in list {
                write!(f, " {cell}")?;
            }
            left = behind;
        }
        Ok(())
    }
}
