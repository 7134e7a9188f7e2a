// First steps on a store: how many words it needs, a fresh one, two assignments, one of them taken back.

#![tactic(auto)]

use script::say;
use std::io::{self, Write};
use store::{Refusal, areas, limits};
use trail::{Assigned, Undone, Valued};

// `edges` says it so too: no crate above `trail` is below both, and one for this alone is no plainer.
fn say_assigned<W: Write>(out: &mut W, answer: Result<Assigned, Refusal>) -> io::Result<()> {
    match answer {
        Ok(Assigned::New) => writeln!(out, "new"),
        Ok(Assigned::Already) => writeln!(out, "already"),
        Err(refusal) => say::refused(out, refusal),
    }
}

fn say_undone<W: Write>(out: &mut W, answer: Result<Undone, Refusal>) -> io::Result<()> {
    match answer {
        Ok(Undone { decision, level }) => writeln!(
            out,
            "popped variable {} of clause {}; the last entry is at level {level}",
            decision.variable, decision.clause
        ),
        Err(refusal) => say::refused(out, refusal),
    }
}

fn say_value<W: Write>(out: &mut W, answer: Result<Option<Valued>, Refusal>) -> io::Result<()> {
    match answer {
        Ok(Some(Valued { value, level })) => writeln!(out, "value {value} at level {level}"),
        Ok(None) => writeln!(out, "undecided"),
        Err(refusal) => say::refused(out, refusal),
    }
}

fn main(rt: HostRuntime) -> io::Result<()> {
    let mut out = rt.stdout();
    writeln!(out, "words of a store: {}", areas::WORDS)?;
    let mut words = [0u32; limits::WORD_ROOM];
    let _ = store::fresh::fresh(&mut words);
    say_assigned(&mut out, trail::assign(&mut words, 0, 1, 1, 10))?;
    say_assigned(&mut out, trail::assign(&mut words, 7, 0, 2, 11))?;
    say_assigned(&mut out, trail::assign(&mut words, 7, 1, 3, 12))?;
    say_value(&mut out, trail::value_of(&words, 7))?;
    say_undone(&mut out, trail::undo_last(&mut words))?;
    say_value(&mut out, trail::value_of(&words, 7))?;
    say_undone(&mut out, trail::undo_last(&mut words))?;
    say_value(&mut out, trail::value_of(&words, limits::VARIABLES as u32))
}
