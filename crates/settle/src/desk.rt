// The store that calls are made on, and where their answers go.
use script::say;
use std::io::{self, Write};
use store::Refusal;
use store::limits::WORD_ROOM;

pub struct Desk<W> {
    pub store: [u32; WORD_ROOM],
    pub out: W,
}

impl<W: Write> Desk<W> {
    // With a fresh store.
    pub fn new(out: W) -> Self {
        let mut store = [0; WORD_ROOM];
        let _ = store::fresh::fresh(&mut store);
        Desk { store, out }
    }

    // Says that a call was refused.
    pub fn refuse(&mut self, refusal: Refusal) -> io::Result<()> {
        say::refused(&mut self.out, refusal)
    }

    // Says what became of a call that has no other answer.
    pub fn tell(&mut self, answer: Result<(), Refusal>) -> io::Result<()> {
        match answer {
            Ok(()) => writeln!(self.out, "ok"),
            Err(refusal) => self.refuse(refusal),
        }
    }

    pub fn fresh(&mut self) -> io::Result<()> {
        let answer = store::fresh::fresh(&mut self.store);
        self.tell(answer)
    }
}
