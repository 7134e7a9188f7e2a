// One line: the call that is made, and what is said where it is none.
use crate::desk::Desk;
use crate::line::Line;
use crate::misread;
use script::forms::{self, Command};
use script::names::CALLS;
use script::words::{self, MOST_WORDS, Word};
use std::io::{self, Write};

// What became of a line whose answer was written.
#[derive(Clone, Copy)]
pub enum Told {
    Well,
    NotUnderstood,
    Quit,
}

impl<W: Write> Desk<W> {
    // Every call with its words, a line each.
    fn help(&mut self) -> io::Result<()> {
        for call in CALLS {
            writeln!(self.out, "{call}")?;
        }
        Ok(())
    }

    // Makes a call and says its answer. A name is for who tells the answers to people, and has none.
    fn make(&mut self, command: Command<'_>) -> io::Result<()> {
        match command {
            Command::Fresh => self.fresh(),
            Command::LoadVersionSet { set, name } => self.load_version_set(set, name),
            Command::LoadUnion { id, members } => self.load_union(id, members),
            Command::LoadCandidates { kind, id, lists } => self.load_candidates(kind, id, lists),
            Command::LookUp { kind, id } => self.look_up(kind, id),
            Command::LoadDisjunction { id, literals } => self.load_disjunction(id, literals),
            Command::LoadNode(node) => self.load_node(node),
            Command::Rewrite { node, room } => self.rewrite(node, room),
            Command::Holds(conjuncts) => self.holds(conjuncts),
            Command::Assign(assignment) => self.assign(assignment),
            Command::UndoLast => self.undo_last(),
            Command::UndoUntil(level) => self.undo_until(level),
            Command::Next => self.next(),
            Command::ClauseOf(variable) => self.clause_of(variable),
            Command::ValueOf(variable) => self.value_of(variable),
            Command::LevelOf(variable) => self.level_of(variable),
            Command::Trail(room) => self.trail(room),
            Command::Register(clause) => self.register(clause),
            Command::MarkHot(name) => self.mark_hot(name),
            Command::SetActivity { name, activity } => self.set_activity(name, activity),
            Command::SetMode(mode) => self.set_mode(mode),
            Command::Sync => self.sync(),
            Command::Propose => self.propose(),
            Command::Help => self.help(),
            Command::Name | Command::Quit => Ok(()),
        }
    }

    // Answers a line that has words before its comment.
    fn answer_words(&mut self, line: &Line, words: &[Word]) -> io::Result<Told> {
        match forms::hear(words) {
            Ok(Command::Quit) => Ok(Told::Quit),
            Ok(command) => {
                self.make(command)?;
                Ok(Told::Well)
            }
            Err(misheard) => {
                misread::say(&mut self.out, line, misheard)?;
                Ok(Told::NotUnderstood)
            }
        }
    }

    // Makes the call of a line and says its answer; there is room for the line's words. A line of blanks or a comment has no answer.
    pub fn answer(&mut self, line: &Line, room: &mut [Word; MOST_WORDS]) -> io::Result<Told> {
        if line.is_long() {
            misread::say_long(&mut self.out, line)?;
            return Ok(Told::NotUnderstood);
        }
        let words = words::scan(line.text(), room);
        if words.is_empty() {
            return Ok(Told::Well);
        }
        self.answer_words(line, words)
    }
}
