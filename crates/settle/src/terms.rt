// Calls on conditions: dnf, holds.
use crate::desk::Desk;
use crate::packs;
use conditions::Rewritten;
use script::lists::Numbers;
use script::say::Lists;
use script::words::Word;
use std::io::{self, Write};
use store::limits;

// The most terms that a rewritten condition has.
const TERMS: usize = limits::MOST_TERMS;

// The most version sets that they have together.
const SETS: usize = TERMS * limits::MOST_SETS;

impl<W: Write> Desk<W> {
    // Lends room for so many terms and version sets as the line says, or for all that there can be.
    pub fn rewrite(&mut self, node: u32, room: Option<(u32, u32)>) -> io::Result<()> {
        let mut lengths = [0; TERMS];
        let mut cells = [0; SETS];
        let (terms, sets) = match room {
            Some((terms, sets)) => (store::wide(terms).min(TERMS), store::wide(sets).min(SETS)),
            None => (TERMS, SETS),
        };
        match conditions::rewrite(&self.store, node, &mut lengths[..terms], &mut cells[..sets]) {
            Ok(Rewritten { terms, cells: _ }) => {
                let lengths = lengths.get(..store::wide(terms)).unwrap_or(&lengths);
                let cells = &cells;
                writeln!(self.out, "dnf{}", Lists { lengths, cells })
            }
            Err(refusal) => self.refuse(refusal),
        }
    }

    pub fn holds(&mut self, words: &[Word]) -> io::Result<()> {
        // Conjuncts, each a kind over a range of the cells.
        let mut kinds = Numbers::new();
        let mut starts = Numbers::new();
        let mut lengths = Numbers::new();
        let mut cells = Numbers::new();
        for conjunct in words.split(|word| *word == Word::Semicolon) {
            // As it is written: a kind and then its candidates.
            if let [Word::Number(kind), candidates @ ..] = conjunct {
                kinds.push(*kind);
                starts.push(cells.as_slice().len() as u32);
                let length = packs::take(candidates, &mut cells);
                lengths.push(length);
            }
        }
        let answer = conditions::disjunct_holds(
            &self.store,
            kinds.as_slice(),
            starts.as_slice(),
            lengths.as_slice(),
            cells.as_slice(),
        );
        match answer {
            Ok(holds) => writeln!(self.out, "holds {}", u32::from(holds)),
            Err(refusal) => self.refuse(refusal),
        }
    }
}
