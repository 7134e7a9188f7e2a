// Calls on the queue: sync, propose.
ghost use Rattle.proposal.specs.Propose.{Numbered};

use crate::desk::Desk;
use proposal::Proposal;
use std::io::{self, Write};
use store::Refusal;

impl<W: Write> Desk<W> {
    pub fn sync(&mut self) -> io::Result<()> {
        match sync::sync(&mut self.store) {
            Ok(touches) => writeln!(self.out, "touches {touches}"),
            Err(refusal) => self.refuse(refusal),
        }
    }

    // A dead clause is a refusal with the clause and how many clauses left the queue.
    pub fn propose(&mut self) -> io::Result<()> {
        match proposal::propose(&mut self.store) {
            Ok(
                Proposal::Choose {
                    candidate,
                    parent,
                    clause,
                    activity,
                    count,
                    dropped,
                },
            ) => {
                let bits = f32::to_bits(activity);
                writeln!(
                    self.out,
                    "choose {candidate} {parent} {clause} {bits} {count} {dropped}"
                )
            }
            Ok(Proposal::Nothing { dropped }) => writeln!(self.out, "nothing {dropped}"),
            Ok(Proposal::Dead { clause, dropped }) => {
                let number = Refusal::DeadClause.number();
                writeln!(self.out, "refused {number} {clause} {dropped}")
            }
            Err(refusal) => self.refuse(refusal),
        }
    }
}
