// Calls that load packs and look into them: vs, union, cand, lookup, disj, node.
use crate::desk::Desk;
use requirement::Copied;
use script::forms::Node;
use script::lists::Numbers;
use script::names::RequirementKind;
use script::say::Lists;
use script::words::Word;
use std::io::{self, Write};
use store::limits;

// Takes a list's numbers, and answers how many there were.
pub fn take(list: &[Word], cells: &mut Numbers) -> u32 {
    let before = cells.as_slice().len();
    for word in list {
        if let Word::Number(number) = word {
            cells.push(*number);
        }
    }
    cells.as_slice().len().saturating_sub(before) as u32
}

impl<W: Write> Desk<W> {
    pub fn load_version_set(&mut self, set: u32, name: u32) -> io::Result<()> {
        let answer = tables::load_version_set(&mut self.store, set, name);
        self.tell(answer)
    }

    pub fn load_union(&mut self, id: u32, words: &[Word]) -> io::Result<()> {
        let mut members = Numbers::new();
        take(words, &mut members);
        let answer = tables::load_union(&mut self.store, id, members.as_slice());
        self.tell(answer)
    }

    pub fn load_candidates(
        &mut self,
        kind: RequirementKind,
        id: u32,
        lists: Option<&[Word]>,
    ) -> io::Result<()> {
        let mut lengths = Numbers::new();
        let mut cells = Numbers::new();
        if let Some(words) = lists {
            for list in words.split(|word| *word == Word::Semicolon) {
                let length = take(list, &mut cells);
                lengths.push(length);
            }
        }
        let answer = requirement::load_candidates(
            &mut self.store,
            kind as u32,
            id,
            lengths.as_slice(),
            cells.as_slice(),
        );
        self.tell(answer)
    }

    pub fn look_up(&mut self, kind: RequirementKind, id: u32) -> io::Result<()> {
        let mut lengths = [0; limits::UNION_ROOM];
        let mut cells = [0; limits::CELL_ROOM];
        match requirement::copy_candidates(&self.store, kind as u32, id, &mut lengths, &mut cells) {
            Ok(Copied { lists, cells: _ }) => {
                let lengths = lengths.get(..store::wide(lists)).unwrap_or(&lengths);
                let cells = &cells;
                writeln!(self.out, "cells{}", Lists { lengths, cells })
            }
            Err(refusal) => self.refuse(refusal),
        }
    }

    pub fn load_disjunction(&mut self, id: u32, literals: &[Word]) -> io::Result<()> {
        let mut variables = Numbers::new();
        let mut signs = Numbers::new();
        for literal in literals.chunks_exact(2) {
            if let [Word::Number(variable), Word::Number(sign)] = literal {
                variables.push(*variable);
                signs.push(*sign);
            }
        }
        let answer = tables::load_disjunction(
            &mut self.store,
            id,
            variables.as_slice(),
            signs.as_slice(),
        );
        self.tell(answer)
    }

    pub fn load_node(&mut self, node: Node) -> io::Result<()> {
        let Node {
            id,
            kind,
            left,
            right,
        } = node;
        let answer = tables::load_condition(&mut self.store, id, kind as u32, left, right);
        self.tell(answer)
    }
}
