// Document 01's edges that are shown by running: the largest level, the largest rewritten condition and the last clause, one step beyond
// each, and undo_until on one entry above its level.

#![tactic(auto)]

use conditions::Rewritten;
use script::say;
use std::io::{self, Write};
use store::{Refusal, codes, limits};
use trail::Assigned;

// The most terms that a rewritten condition has.
const TERMS: usize = limits::MOST_TERMS;

// The most version sets that they have together.
const SETS: usize = TERMS * limits::MOST_SETS;

// `first_steps` says it so too: no crate above `trail` is below both, and one for this alone is no plainer.
fn say_assigned<W: Write>(out: &mut W, answer: Result<Assigned, Refusal>) -> io::Result<()> {
    match answer {
        Ok(Assigned::New) => writeln!(out, "new"),
        Ok(Assigned::Already) => writeln!(out, "already"),
        Err(refusal) => say::refused(out, refusal),
    }
}

fn say_done<W: Write>(out: &mut W, answer: Result<(), Refusal>) -> io::Result<()> {
    match answer {
        Ok(()) => writeln!(out, "done"),
        Err(refusal) => say::refused(out, refusal),
    }
}

fn say_rewritten<W: Write>(out: &mut W, answer: Result<Rewritten, Refusal>) -> io::Result<()> {
    match answer {
        Ok(Rewritten { terms, cells }) => {
            writeln!(out, "{terms} terms of {cells} version sets together")
        }
        Err(refusal) => say::refused(out, refusal),
    }
}

// What is expected to be done: only a refusal is told.
fn expect_done<W: Write>(out: &mut W, answer: Result<(), Refusal>) -> io::Result<()> {
    match answer {
        Ok(()) => Ok(()),
        Err(refusal) => say::refused(out, refusal),
    }
}

fn load_and(words: &mut [u32], node: u32, left: u32, right: u32) -> Result<(), Refusal> {
    tables::load_condition(words, node, 1, left, right)
}

// Version sets a and b, a leaf for each, and node 2: a or b.
fn load_leaves(words: &mut [u32]) -> Result<(), Refusal> {
    tables::load_version_set(words, 0, 0)?;
    tables::load_version_set(words, 1, 1)?;
    tables::load_condition(words, 0, 0, 0, 0)?;
    tables::load_condition(words, 1, 0, 1, 0)?;
    tables::load_condition(words, 2, 2, 0, 1)
}

// Node 7 is (a or b) six times over, 64 terms; node 8 has one term more.
fn load_wide(words: &mut [u32]) -> Result<(), Refusal> {
    load_and(words, 3, 2, 2)?;
    load_and(words, 4, 3, 2)?;
    load_and(words, 5, 4, 2)?;
    load_and(words, 6, 5, 2)?;
    load_and(words, 7, 6, 2)?;
    tables::load_condition(words, 8, 2, 7, 0)
}

// Node 12 is a sixteen times over, node 13 once more.
fn load_deep(words: &mut [u32]) -> Result<(), Refusal> {
    load_and(words, 9, 0, 0)?;
    load_and(words, 10, 9, 9)?;
    load_and(words, 11, 10, 10)?;
    load_and(words, 12, 11, 11)?;
    load_and(words, 13, 12, 0)
}

fn try_levels<W: Write>(out: &mut W, words: &mut [u32]) -> io::Result<()> {
    write!(out, "level 2,147,483,647: ")?;
    say_assigned(out, trail::assign(words, 0, 1, 2_147_483_647, 10))?;
    write!(out, "level 2,147,483,648: ")?;
    say_assigned(out, trail::assign(words, 1, 1, 2_147_483_648, 10))?;
    write!(out, "one entry at level 2,147,483,647, undo-until 1: ")?;
    say_done(out, trail::undo_until(words, 1))
}

fn try_stop<W: Write>(out: &mut W, words: &mut [u32]) -> io::Result<()> {
    write!(out, "undo-until 0: ")?;
    say_done(out, trail::undo_until(words, 0))?;
    write!(out, "level 2: ")?;
    say_assigned(out, trail::assign(words, 0, 1, 2, 10))?;
    write!(out, "one entry at level 2, undo-until 1: ")?;
    say_done(out, trail::undo_until(words, 1))
}

// Rewrites a node's condition to a list with room for so many terms as there are lengths.
fn try_rewriting<W: Write>(
    out: &mut W,
    words: &[u32],
    node: u32,
    lengths: &mut [u32],
) -> io::Result<()> {
    let mut cells = [0; SETS];
    say_rewritten(out, conditions::rewrite(words, node, lengths, &mut cells))
}

fn try_conditions<W: Write>(out: &mut W, words: &[u32]) -> io::Result<()> {
    write!(out, "64 terms: ")?;
    try_rewriting(out, words, 7, &mut [0; TERMS])?;
    write!(out, "65 terms: ")?;
    try_rewriting(out, words, 8, &mut [0; TERMS])?;
    write!(out, "a term of 16: ")?;
    try_rewriting(out, words, 12, &mut [0; TERMS])?;
    write!(out, "a term of 17: ")?;
    try_rewriting(out, words, 13, &mut [0; TERMS])?;
    write!(out, "64 terms, 63 places: ")?;
    try_rewriting(out, words, 7, &mut [0; TERMS - 1])
}

// A clause of the root that needs version set 0, on no condition.
fn register(words: &mut [u32; limits::WORD_ROOM]) -> Result<(), Refusal> {
    clauses::register(words, rules::ROOT, 0, 0, codes::NO_CONDITION, 10)
}

fn register_many(words: &mut [u32; limits::WORD_ROOM], n: usize) -> Result<(), Refusal> {
    for _ in 0..n {
        register(words)?;
    }
    Ok(())
}

fn try_clauses<W: Write>(out: &mut W, words: &mut [u32; limits::WORD_ROOM]) -> io::Result<()> {
    expect_done(out, requirement::load_candidates(words, 0, 0, &[1], &[1]))?;
    expect_done(out, register_many(words, limits::CLAUSES - 1))?;
    write!(out, "clause 512: ")?;
    say_done(out, register(words))?;
    write!(out, "clause 513: ")?;
    say_done(out, register(words))
}

fn main(rt: HostRuntime) -> io::Result<()> {
    let mut out = rt.stdout();
    let mut words = [0u32; limits::WORD_ROOM];
    let _ = store::fresh::fresh(&mut words);
    try_levels(&mut out, &mut words)?;
    try_stop(&mut out, &mut words)?;
    expect_done(&mut out, load_leaves(&mut words))?;
    expect_done(&mut out, load_wide(&mut words))?;
    expect_done(&mut out, load_deep(&mut words))?;
    try_conditions(&mut out, &words)?;
    try_clauses(&mut out, &mut words)
}
