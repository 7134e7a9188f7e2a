// Calls on the trail: assign, undo_last, undo_until, next, clause_of, value_of, level_of, trail.
use crate::desk::Desk;
use script::forms::Assignment;
use std::fmt;
use std::io::{self, Write};
use store::{Refusal, limits};
use trail::{Assigned, Decision, Undone, entries};

// An entry as an answer says it.
#[derive(Clone, Copy)]
struct Entry(Decision);

impl fmt::Display for Entry {
    fn fmt<W: fmt::Write>(&self, f: &mut fmt::Formatter<W>) -> fmt::Result {
        let Decision {
            variable,
            value,
            clause,
        } = self.0;
        write!(f, "{variable} {value} {clause}")
    }
}

impl<W: Write> Desk<W> {
    pub fn assign(&mut self, assignment: Assignment) -> io::Result<()> {
        let Assignment {
            variable,
            value,
            level,
            clause,
        } = assignment;
        match trail::assign(&mut self.store, variable, value, level, clause) {
            Ok(Assigned::New) => writeln!(self.out, "new"),
            Ok(Assigned::Already) => writeln!(self.out, "already"),
            Err(refusal) => self.refuse(refusal),
        }
    }

    pub fn undo_last(&mut self) -> io::Result<()> {
        match trail::undo_last(&mut self.store) {
            Ok(Undone { decision, level }) => {
                writeln!(self.out, "popped {} {level}", Entry(decision))
            }
            Err(refusal) => self.refuse(refusal),
        }
    }

    pub fn undo_until(&mut self, level: u32) -> io::Result<()> {
        let answer = trail::undo_until(&mut self.store, level);
        self.tell(answer)
    }

    pub fn next(&mut self) -> io::Result<()> {
        match trail::next_unpropagated(&mut self.store) {
            Ok(Some(decision)) => writeln!(self.out, "next {}", Entry(decision)),
            Ok(None) => writeln!(self.out, "none"),
            Err(refusal) => self.refuse(refusal),
        }
    }

    pub fn clause_of(&mut self, variable: u32) -> io::Result<()> {
        match trail::clause_of(&self.store, variable) {
            Ok(Some(clause)) => writeln!(self.out, "clause {clause}"),
            Ok(None) => writeln!(self.out, "none"),
            Err(refusal) => self.refuse(refusal),
        }
    }

    pub fn value_of(&mut self, variable: u32) -> io::Result<()> {
        match trail::value_of(&self.store, variable) {
            Ok(Some(valued)) => writeln!(self.out, "value {}", valued.value),
            Ok(None) => writeln!(self.out, "value -"),
            Err(refusal) => self.refuse(refusal),
        }
    }

    pub fn level_of(&mut self, variable: u32) -> io::Result<()> {
        match trail::value_of(&self.store, variable) {
            Ok(Some(valued)) => writeln!(self.out, "level {}", valued.level),
            Ok(None) => writeln!(self.out, "level 0"),
            Err(refusal) => self.refuse(refusal),
        }
    }

    // The whole trail, to a list with room for so many entries, or for all that there can be.
    pub fn trail(&mut self, room: Option<u32>) -> io::Result<()> {
        match trail::trail_length(&self.store) {
            Ok(length) if room.is_some_and(|room| room < length) => self.refuse(Refusal::NoRoom),
            Ok(length) => self.say_entries(store::wide(length)),
            Err(refusal) => self.refuse(refusal),
        }
    }

    fn say_entries(&mut self, length: usize) -> io::Result<()> {
        write!(self.out, "trail")?;
        // By number: an entry lies in three areas of the store, and is no element of a slice.
        for k in 0..length.min(limits::TRAIL_ROOM) {
            if 0 < k {
                write!(self.out, " ;")?;
            }
            write!(self.out, " {}", Entry(entries::decision_at(&self.store, k)))?;
        }
        writeln!(self.out)
    }
}
