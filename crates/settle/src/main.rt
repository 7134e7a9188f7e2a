// Reads calls line by line from standard input, makes them on one store, and writes one answer line for each. `help` lists them. With the
// argument `--echo` it says each line before its answer, behind "> ", for who tells both to people. What went wrong is said on standard
// error when all is answered, in one line: that some lines were not understood, or that reading or writing failed. Rooms are fixed: it answers with no memory too.

#![tactic(auto)]

mod answer;
mod clause;
mod decisions;
mod desk;
mod line;
mod misread;
mod packs;
mod queue;
mod session;
mod terms;

use session::Session;
use std::io::{BufWriter, Read, Write};
use std::rt::Env;

// Answers the calls of an input on a fresh store, and gives the writer back.
fn answer_all<R: Read, W: Write>(rt: &(impl Env + Eprint), input: &mut R, out: W) -> W {
    let mut session = Session::new(rt, out);
    session.read_all(rt, input);
    session.end_last(rt);
    session.tell_misread(rt);
    session.into_writer()
}

fn main(rt: HostRuntime) {
    match BufWriter::new(rt.alloc(), rt.stdout()) {
        Ok(out) => {
            let out = answer_all(&rt, &mut rt.stdin(), out);
            // All is put out, or a write failed and was told: what it left is not tried again.
            let _ = out.into_parts();
        }
        // With no memory for a buffer each piece is written by itself.
        Err(_) => {
            let _ = answer_all(&rt, &mut rt.stdin(), rt.stdout());
        }
    }
}
