// One run: the line that is being read, and the desk where it is answered.
use crate::answer::Told;
use crate::desk::Desk;
use crate::line::Line;
use script::names;
use script::words::{MOST_WORDS, Word};
use std::io::{self, Read, Write};
use std::rt::Env;

// The most bytes that one read takes.
const CHUNK: usize = 4_096;

// Whether more is to be read; after a failure nothing is.
#[derive(Clone, Copy, PartialEq, Eq)]
enum Input {
    Open,
    Over,
    Failed,
}

pub struct Session<W> {
    desk: Desk<W>,
    line: Line,
    input: Input,
    // Whether lines are said before their answers.
    is_echoed: bool,
    // How many lines were not understood.
    misread: u64,
}

// Whether the first argument says so.
fn is_echo_asked(rt: &impl Env) -> bool {
    let mut word = [0u8; 8];
    match rt.arg(1, &mut word) {
        Ok(n) => names::same(&word[..n], b"--echo"),
        Err(_) => false,
    }
}

fn tell_unwritten(rt: &impl Eprint, error: &io::Error) {
    let _ = eprintln!(rt; "settle: the answers cannot be written: {error}");
}

impl<W: Write> Session<W> {
    // On a fresh store.
    pub fn new(rt: &impl Env, out: W) -> Self {
        Session {
            desk: Desk::new(out),
            line: Line::first(),
            input: Input::Open,
            is_echoed: is_echo_asked(rt),
            misread: 0,
        }
    }

    pub fn into_writer(self) -> W {
        let Session {
            desk,
            line: _line,
            input: _input,
            is_echoed: _is_echoed,
            misread: _misread,
        } = self;
        let Desk { store: _store, out } = desk;
        out
    }

    // Says the line, if that is asked, and answers it.
    fn answer_line(&mut self, room: &mut [Word; MOST_WORDS]) -> io::Result<Told> {
        if self.is_echoed {
            self.desk.out.write_all(b"> ")?;
            self.desk.out.write_all(self.line.text())?;
            self.desk.out.write_all(b"\n")?;
        }
        self.desk.answer(&self.line, room)
    }

    fn end_line(&mut self, rt: &impl Eprint, room: &mut [Word; MOST_WORDS]) {
        match self.answer_line(room) {
            Ok(Told::Well) => {}
            Ok(Told::NotUnderstood) => self.misread = self.misread.wrapping_add(1),
            Ok(Told::Quit) => self.input = Input::Over,
            Err(error) => {
                tell_unwritten(rt, &error);
                self.input = Input::Failed;
            }
        }
        self.line.end();
    }

    // Puts out what was answered, since the next read may wait.
    fn put_out(&mut self, rt: &impl Eprint) {
        if self.input == Input::Failed {
            return;
        }
        if let Err(error) = self.desk.out.flush() {
            tell_unwritten(rt, &error);
            self.input = Input::Failed;
        }
    }

    fn take_bytes(&mut self, rt: &impl Eprint, chunk: &[u8], room: &mut [Word; MOST_WORDS]) {
        for byte in chunk {
            if self.input != Input::Open {
                return;
            }
            if *byte == b'\n' {
                self.end_line(rt, room);
            } else {
                self.line.keep(*byte);
            }
        }
    }

    // Reads once, answers the lines that end in what came, and puts the answers out.
    fn read_some<R: Read>(
        &mut self,
        rt: &impl Eprint,
        input: &mut R,
        room: &mut [Word; MOST_WORDS],
    ) {
        let mut chunk = [0u8; CHUNK];
        match input.read(&mut chunk) {
            Ok(0) => self.input = Input::Over,
            Ok(n) => {
                self.take_bytes(rt, &chunk[..n], room);
                self.put_out(rt);
            }
            Err(error) => self.fail_unread(rt, &error),
        }
    }

    fn fail_unread(&mut self, rt: &impl Eprint, error: &io::Error) {
        let _ = eprintln!(rt; "settle: the calls cannot be read: {error}");
        self.input = Input::Failed;
    }

    // Answers what the first read brought, and reads on. The room for a line's words is fixed, so that no line runs out of memory. Not inlined,
    // so that an empty input needs no stack for it. Nothing says that the input ends, so there are as many turns as no run uses up.
    #[inline(never)]
    fn read_on<R: Read>(&mut self, rt: &impl Eprint, input: &mut R, first: &[u8]) {
        let mut room = [Word::Unknown; MOST_WORDS];
        self.take_bytes(rt, first, &mut room);
        self.put_out(rt);
        for _ in 0..u64::MAX {
            if self.input != Input::Open {
                return;
            }
            self.read_some(rt, input, &mut room);
        }
    }

    pub fn read_all<R: Read>(&mut self, rt: &impl Eprint, input: &mut R) {
        let mut chunk = [0u8; CHUNK];
        match input.read(&mut chunk) {
            Ok(0) => self.input = Input::Over,
            Ok(n) => self.read_on(rt, input, &chunk[..n]),
            Err(error) => self.fail_unread(rt, &error),
        }
    }

    // Ends a line with no line end, in room like that of `read_on`.
    #[inline(never)]
    fn end_open_line(&mut self, rt: &impl Eprint) {
        let mut room = [Word::Unknown; MOST_WORDS];
        self.end_line(rt, &mut room);
    }

    // A last line may lack its line end.
    pub fn end_last(&mut self, rt: &impl Eprint) {
        if self.input != Input::Failed && !self.line.is_empty() {
            self.end_open_line(rt);
            self.put_out(rt);
        }
    }

    // How many lines were not understood, on standard error, unless a failure was told there.
    pub fn tell_misread(&self, rt: &impl Eprint) {
        let n = self.misread;
        if n == 0 || self.input == Input::Failed {
            return;
        }
        let _ = if n == 1 {
            eprintln!(rt; "settle: {n} line was not understood")
        } else {
            eprintln!(rt; "settle: {n} lines were not understood")
        };
    }
}
