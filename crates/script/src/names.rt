// The words that are no numbers: calls, kinds, and what stands between or for numbers.
ghost use Rattle.std.specs.Prelude.{◌≡◌, ◌↔◌, IsTrue};

use crate::words::Word;

// The calls, in the order in which `help` lists them.
#[derive(Clone, Copy, PartialEq, Eq)]
pub enum Call {
    Fresh,
    VersionSet,
    Union,
    Candidates,
    LookUp,
    Disjunction,
    Node,
    Rewrite,
    Assign,
    UndoLast,
    UndoUntil,
    Next,
    ClauseOf,
    ValueOf,
    LevelOf,
    Trail,
    Register,
    Hot,
    Activity,
    Mode,
    Sync,
    Propose,
    Holds,
    Help,
    Name,
    Quit,
}

pub const CALLS: [Call; 26] = [
    Call::Fresh,
    Call::VersionSet,
    Call::Union,
    Call::Candidates,
    Call::LookUp,
    Call::Disjunction,
    Call::Node,
    Call::Rewrite,
    Call::Assign,
    Call::UndoLast,
    Call::UndoUntil,
    Call::Next,
    Call::ClauseOf,
    Call::ValueOf,
    Call::LevelOf,
    Call::Trail,
    Call::Register,
    Call::Hot,
    Call::Activity,
    Call::Mode,
    Call::Sync,
    Call::Propose,
    Call::Holds,
    Call::Help,
    Call::Name,
    Call::Quit,
];

// What a requirement is; as a number, what the store's calls take.
#[derive(Clone, Copy, PartialEq, Eq)]
pub enum RequirementKind {
    Single = 0,
    Union = 1,
}

// What a condition node is; as a number, what the store's calls take.
#[derive(Clone, Copy, PartialEq, Eq)]
pub enum NodeKind {
    Leaf = 0,
    And = 1,
    Or = 2,
}

// Whether two words have the same bytes: `==`, with what it says as a clause, which the crate promises.
pub fn same(a: &[u8], b: &[u8]) -> bool
    ensures { IsTrue result ↔ (a.now ≡ b.now) }
{
    a == b
}

// The word of these bytes, which do not begin like a number.
pub(crate) fn word_named(bytes: &[u8]) -> Word {
    match bytes {
        b"assign" => Word::Call(Call::Assign),
        b"undo_last" => Word::Call(Call::UndoLast),
        b"undo_until" => Word::Call(Call::UndoUntil),
        b"next" => Word::Call(Call::Next),
        b"clause_of" => Word::Call(Call::ClauseOf),
        b"value_of" => Word::Call(Call::ValueOf),
        b"level_of" => Word::Call(Call::LevelOf),
        b"trail" => Word::Call(Call::Trail),
        b"sync" => Word::Call(Call::Sync),
        b"propose" => Word::Call(Call::Propose),
        b";" => Word::Semicolon,
        b"-" => Word::Dash,
        b"none" => Word::None,
        b"s" => Word::Requirement(RequirementKind::Single),
        b"u" => Word::Requirement(RequirementKind::Union),
        b"leaf" => Word::Node(NodeKind::Leaf),
        b"and" => Word::Node(NodeKind::And),
        b"or" => Word::Node(NodeKind::Or),
        b"fresh" => Word::Call(Call::Fresh),
        b"vs" => Word::Call(Call::VersionSet),
        b"union" => Word::Call(Call::Union),
        b"cand" => Word::Call(Call::Candidates),
        b"lookup" => Word::Call(Call::LookUp),
        b"disj" => Word::Call(Call::Disjunction),
        b"node" => Word::Call(Call::Node),
        b"register" => Word::Call(Call::Register),
        b"hot" => Word::Call(Call::Hot),
        b"activity" => Word::Call(Call::Activity),
        b"mode" => Word::Call(Call::Mode),
        b"dnf" => Word::Call(Call::Rewrite),
        b"holds" => Word::Call(Call::Holds),
        b"help" => Word::Call(Call::Help),
        b"name" => Word::Call(Call::Name),
        b"quit" => Word::Call(Call::Quit),
        b"variable" | b"pack" | b"set" | b"clause" => Word::Thing,
        _ => Word::Unknown,
    }
}
