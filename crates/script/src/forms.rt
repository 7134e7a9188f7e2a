// What a line says: a call with what it takes, or why it is none.
use crate::expected::Expected;
use crate::names::{Call, NodeKind, RequirementKind};
use crate::words::{Fraction, Word};

// An activity as it is written.
#[derive(Clone, Copy, PartialEq, Eq)]
pub enum Activity {
    Bits(u32),
    Fraction(Fraction),
}

// A condition node that is loaded.
#[derive(Clone, Copy, PartialEq, Eq)]
pub struct Node {
    pub id: u32,
    pub kind: NodeKind,
    pub left: u32,
    pub right: u32,
}

// An assignment, with its value as it is written: the call itself refuses what is no 0 or 1, so it is no enum here.
#[derive(Clone, Copy, PartialEq, Eq)]
pub struct Assignment {
    pub variable: u32,
    pub value: u32,
    pub level: u32,
    pub clause: u32,
}

// A clause that is registered, with or without a condition.
#[derive(Clone, Copy, PartialEq, Eq)]
pub struct Registration {
    pub parent: u32,
    pub kind: RequirementKind,
    pub requirement: u32,
    pub condition: Option<u32>,
    pub clause: u32,
}

// A call with what it takes: of a call that takes one number or list, that one. Lists stand as their words: numbers, with `;` between two
// lists.
#[derive(Clone, Copy)]
pub enum Command<'a> {
    Fresh,
    LoadVersionSet {
        set: u32,
        name: u32,
    },
    LoadUnion {
        id: u32,
        members: &'a [Word],
    },
    LoadCandidates {
        kind: RequirementKind,
        id: u32,
        lists: Option<&'a [Word]>,
    },
    LookUp {
        kind: RequirementKind,
        id: u32,
    },
    LoadDisjunction {
        id: u32,
        literals: &'a [Word],
    },
    LoadNode(Node),
    // With room for so many terms and cells, or for all that there can be.
    Rewrite {
        node: u32,
        room: Option<(u32, u32)>,
    },
    Assign(Assignment),
    UndoLast,
    UndoUntil(u32),
    Next,
    ClauseOf(u32),
    ValueOf(u32),
    LevelOf(u32),
    // With room for so many entries, or for all that there can be.
    Trail(Option<u32>),
    Register(Registration),
    MarkHot(u32),
    SetActivity {
        name: u32,
        activity: Activity,
    },
    // A number, as an assignment's value is: the store's call refuses what is no 0 or 1.
    SetMode(u32),
    Sync,
    Propose,
    Holds(&'a [Word]),
    Help,
    Name,
    Quit,
}

// Why a line is no call in its form. A word that is not as it should be is told by its place, which is counted from 0 with the call's name.
#[derive(Clone, Copy, PartialEq, Eq)]
pub enum Misheard {
    NoSuchCall,
    TooFew(Call),
    TooMany(Call),
    Wrong { place: usize, expected: Expected },
}

// The words of a line, the first of which names this call.
#[derive(Clone, Copy)]
struct Asked<'a> {
    call: Call,
    words: &'a [Word],
}

impl<'a> Asked<'a> {
    // How many words stand behind the name.
    fn count(self) -> usize {
        self.words.len().saturating_sub(1)
    }

    fn at_least(self, count: usize) -> Result<(), Misheard> {
        if self.count() < count {
            return Err(Misheard::TooFew(self.call));
        }
        Ok(())
    }

    fn exactly(self, count: usize) -> Result<(), Misheard> {
        self.at_least(count)?;
        if self.count() > count {
            return Err(Misheard::TooMany(self.call));
        }
        Ok(())
    }

    // Word `place` as what it is read as, if it is as expected.
    fn read<T, F: FnOnce(Word) -> Option<T>>(
        self,
        place: usize,
        expected: Expected,
        read: F,
    ) -> Result<T, Misheard>
        requires { F.IsAlwaysCallable read }
    {
        let word = self.words.get(place).copied().unwrap_or(Word::Unknown);
        read(word).ok_or(Misheard::Wrong { place, expected })
    }

    fn number_as(self, place: usize, expected: Expected) -> Result<u32, Misheard> {
        self.read(place, expected, |word| match word {
            Word::Number(number) => Some(number),
            _ => None,
        })
    }

    fn number(self, place: usize) -> Result<u32, Misheard> {
        self.number_as(place, Expected::Number)
    }

    fn requirement_kind(self, place: usize) -> Result<RequirementKind, Misheard> {
        self.read(place, Expected::RequirementKind, |word| match word {
            Word::Requirement(kind) => Some(kind),
            _ => None,
        })
    }

    // The words from this place on.
    fn rest(self, from: usize) -> &'a [Word] {
        self.words.get(from..).unwrap_or(&[])
    }

    // The same, all of them numbers. This loop and those below it go by places, since a wrong word is told by its place.
    fn numbers(self, from: usize) -> Result<&'a [Word], Misheard> {
        for place in from..self.words.len() {
            self.number(place)?;
        }
        Ok(self.rest(from))
    }

    fn is_semicolon(self, place: usize) -> bool {
        self.words.get(place) == Some(&Word::Semicolon)
    }

    // The same, with `;` between two lists.
    fn lists(self, from: usize) -> Result<&'a [Word], Misheard> {
        for place in from..self.words.len() {
            if !self.is_semicolon(place) {
                self.number_as(place, Expected::Cell)?;
            }
        }
        Ok(self.rest(from))
    }

    fn is_number(self, place: usize) -> bool {
        matches!(self.words.get(place), Some(Word::Number(_)))
    }

    // The same, no list empty: each `;` stands between two numbers.
    fn full_lists(self) -> Result<&'a [Word], Misheard> {
        let lists = self.lists(1)?;
        for place in 1..self.words.len() {
            let is_between = self.is_number(place - 1) && self.is_number(place + 1);
            if self.is_semicolon(place) && !is_between {
                return Err(Misheard::Wrong {
                    place,
                    expected: Expected::Between,
                });
            }
        }
        Ok(lists)
    }

    // A call that takes nothing.
    fn alone(self, command: Command<'a>) -> Result<Command<'a>, Misheard> {
        self.exactly(0)?;
        Ok(command)
    }

    // What a call takes that takes one number.
    fn only(self) -> Result<u32, Misheard> {
        self.exactly(1)?;
        self.number(1)
    }

    fn version_set(self) -> Result<Command<'a>, Misheard> {
        self.exactly(2)?;
        Ok(Command::LoadVersionSet {
            set: self.number(1)?,
            name: self.number(2)?,
        })
    }

    fn union(self) -> Result<Command<'a>, Misheard> {
        self.at_least(1)?;
        Ok(Command::LoadUnion {
            id: self.number(1)?,
            members: self.numbers(2)?,
        })
    }

    // Lists of candidates, or none.
    fn candidates(self) -> Result<Command<'a>, Misheard> {
        let is_none = self.words.get(3) == Some(&Word::None);
        if is_none {
            self.exactly(3)?;
        } else {
            self.at_least(2)?;
        }
        Ok(Command::LoadCandidates {
            kind: self.requirement_kind(1)?,
            id: self.number(2)?,
            lists: if is_none { None } else { Some(self.lists(3)?) },
        })
    }

    fn look_up(self) -> Result<Command<'a>, Misheard> {
        self.exactly(2)?;
        Ok(Command::LookUp {
            kind: self.requirement_kind(1)?,
            id: self.number(2)?,
        })
    }

    // Literals, two words each.
    fn disjunction(self) -> Result<Command<'a>, Misheard> {
        if self.count() % 2 == 0 {
            return Err(Misheard::TooFew(self.call));
        }
        Ok(Command::LoadDisjunction {
            id: self.number(1)?,
            literals: self.numbers(2)?,
        })
    }

    fn node(self) -> Result<Command<'a>, Misheard> {
        self.exactly(4)?;
        Ok(Command::LoadNode(Node {
            id: self.number(1)?,
            kind: self.read(2, Expected::NodeKind, |word| match word {
                Word::Node(kind) => Some(kind),
                _ => None,
            })?,
            left: self.number(3)?,
            right: self.number(4)?,
        }))
    }

    fn rewrite(self) -> Result<Command<'a>, Misheard> {
        if self.count() == 3 {
            return Ok(Command::Rewrite {
                node: self.number(1)?,
                room: Some((self.number(2)?, self.number(3)?)),
            });
        }
        Ok(Command::Rewrite {
            node: self.only()?,
            room: None,
        })
    }

    fn assign(self) -> Result<Command<'a>, Misheard> {
        self.exactly(4)?;
        Ok(Command::Assign(Assignment {
            variable: self.number(1)?,
            value: self.number_as(2, Expected::Value)?,
            level: self.number(3)?,
            clause: self.number(4)?,
        }))
    }

    fn trail(self) -> Result<Command<'a>, Misheard> {
        if self.count() == 1 {
            return Ok(Command::Trail(Some(self.only()?)));
        }
        self.alone(Command::Trail(None))
    }

    fn register(self) -> Result<Command<'a>, Misheard> {
        self.exactly(5)?;
        Ok(Command::Register(Registration {
            parent: self.number(1)?,
            kind: self.requirement_kind(2)?,
            requirement: self.number(3)?,
            condition: self.read(4, Expected::Condition, |word| match word {
                Word::Number(disjunction) => Some(Some(disjunction)),
                Word::Dash => Some(None),
                _ => None,
            })?,
            clause: self.number(5)?,
        }))
    }

    fn activity(self) -> Result<Command<'a>, Misheard> {
        self.exactly(2)?;
        Ok(Command::SetActivity {
            name: self.number(1)?,
            activity: self.read(2, Expected::Activity, |word| match word {
                Word::Number(bits) => Some(Activity::Bits(bits)),
                Word::Fraction { places, digits } => {
                    let divisor = 10u32.checked_pow(u32::from(places))?;
                    Some(Activity::Fraction(Fraction { digits, divisor }))
                }
                _ => None,
            })?,
        })
    }

    fn mode(self) -> Result<Command<'a>, Misheard> {
        self.exactly(1)?;
        Ok(Command::SetMode(self.number_as(1, Expected::Mode)?))
    }

    fn name(self) -> Result<Command<'a>, Misheard> {
        self.exactly(3)?;
        self.read(1, Expected::Thing, |word| match word {
            Word::Thing | Word::Call(Call::Union) => Some(()),
            _ => None,
        })?;
        self.number(2)?;
        Ok(Command::Name)
    }

    // The call in its form.
    fn command(self) -> Result<Command<'a>, Misheard> {
        match self.call {
            Call::Fresh => self.alone(Command::Fresh),
            Call::VersionSet => self.version_set(),
            Call::Union => self.union(),
            Call::Candidates => self.candidates(),
            Call::LookUp => self.look_up(),
            Call::Disjunction => self.disjunction(),
            Call::Node => self.node(),
            Call::Rewrite => self.rewrite(),
            Call::Assign => self.assign(),
            Call::UndoLast => self.alone(Command::UndoLast),
            Call::UndoUntil => Ok(Command::UndoUntil(self.only()?)),
            Call::Next => self.alone(Command::Next),
            Call::ClauseOf => Ok(Command::ClauseOf(self.only()?)),
            Call::ValueOf => Ok(Command::ValueOf(self.only()?)),
            Call::LevelOf => Ok(Command::LevelOf(self.only()?)),
            Call::Trail => self.trail(),
            Call::Register => self.register(),
            Call::Hot => Ok(Command::MarkHot(self.only()?)),
            Call::Activity => self.activity(),
            Call::Mode => self.mode(),
            Call::Sync => self.alone(Command::Sync),
            Call::Propose => self.alone(Command::Propose),
            Call::Holds => Ok(Command::Holds(self.full_lists()?)),
            Call::Help => self.alone(Command::Help),
            Call::Name => self.name(),
            Call::Quit => self.alone(Command::Quit),
        }
    }
}

// What a line of these words is.
pub fn hear(words: &[Word]) -> Result<Command<'_>, Misheard> {
    match words.first() {
        Some(Word::Call(call)) => {
            let asked = Asked { call: *call, words };
            asked.command()
        }
        _ => Err(Misheard::NoSuchCall),
    }
}
