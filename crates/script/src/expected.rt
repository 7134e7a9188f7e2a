// What a call's words are to be, in words: of one word, and of each call as `help` lists it.
use crate::names::Call;
use std::fmt;

// What a word should be.
#[derive(Clone, Copy, PartialEq, Eq)]
pub enum Expected {
    Number,
    Value,
    Mode,
    Activity,
    // Of a clause's condition.
    Condition,
    // Of a list.
    Cell,
    // Of a `;`.
    Between,
    RequirementKind,
    NodeKind,
    Thing,
}

impl fmt::Display for Expected {
    fn fmt<W: fmt::Write>(&self, f: &mut fmt::Formatter<W>) -> fmt::Result {
        f.write_str(match self {
            Expected::Number => "should be a number from 0 to 4294967295",
            Expected::Value => "should be 1 for true or 0 for false",
            Expected::Mode => "should be 1 for standard mode or 0 for the other",
            Expected::Activity => {
                "should be the bits of a float, or a float as 2.5, with up to 9 digits behind its point and no more than 16777216 without it"
            }
            Expected::Condition => "should be a number from 0 to 4294967295, or - for no condition",
            Expected::Cell => "should be a number from 0 to 4294967295, or ; between two lists",
            Expected::Between => "should stand between two numbers",
            Expected::RequirementKind => "should be s for a version set or u for a union",
            Expected::NodeKind => "should be leaf, and, or or",
            Expected::Thing => "should be variable, pack, set, union or clause",
        })
    }
}

// A call with its words.
impl fmt::Display for Call {
    fn fmt<W: fmt::Write>(&self, f: &mut fmt::Formatter<W>) -> fmt::Result {
        f.write_str(match self {
            Call::Fresh => "fresh",
            Call::VersionSet => "vs K NAME",
            Call::Union => "union U V1 V2 ..",
            Call::Candidates => "cand s|u ID c1 c2 ; c3 .. (or none)",
            Call::LookUp => "lookup s|u ID",
            Call::Disjunction => "disj D VAR SIGN VAR SIGN ..",
            Call::Node => "node N leaf V 0 (or and L R, or L R)",
            Call::Rewrite => "dnf N [TERMS CELLS]",
            Call::Assign => "assign VAR 0|1 LEVEL CLAUSE",
            Call::UndoLast => "undo_last",
            Call::UndoUntil => "undo_until L",
            Call::Next => "next",
            Call::ClauseOf => "clause_of VAR",
            Call::ValueOf => "value_of VAR",
            Call::LevelOf => "level_of VAR",
            Call::Trail => "trail [ROOM]",
            Call::Register => "register PARENT s|u REQ COND|- CLAUSE",
            Call::Hot => "hot NAME",
            Call::Activity => "activity NAME BITS|FLOAT",
            Call::Mode => "mode 1|0",
            Call::Sync => "sync",
            Call::Propose => "propose",
            Call::Holds => "holds K c c ; K c ..",
            Call::Help => "help",
            Call::Name => "name variable|pack|set|union|clause N WORD",
            Call::Quit => "quit",
        })
    }
}
