// Requirements and their candidate tables. Each public call tests the store's shape first.

#![tactic(auto)]

ghost use Rattle.std.specs.Prelude.{◌≡◌, length};
ghost use Rattle.requirement.specs.Copy.{copy_lengths, copy_cells, copy_row};
ghost use Rattle.requirement.specs.Load.{load_row};
ghost use Rattle.requirement.specs.Tables.{decoded, key_of, requirement_of};
ghost use Rattle.store.specs.Row.{answer_any, left_any};

use store::{Refusal, codes, limits, shape, wide};

pub mod candidates;

// A single version set, or a union of version sets. Its number's range is a clause, `Named`, of the functions that need it, and no invariant of
// the type: `candidate_part` takes any requirement.
#[derive(Clone, Copy, PartialEq, Eq)]
pub enum Requirement {
    Single(u32),
    Union(u32),
}

impl Requirement {
    // The requirement of a kind and an id that name one.
    #[tactic(auto, unfolding(crate::specs::Tables::requirement_of))]
    pub fn named(kind: u32, id: u32) -> Requirement
        ensures { result ≡ requirement_of kind id }
    {
        if kind == codes::SINGLE {
            Requirement::Single(id)
        } else {
            Requirement::Union(id)
        }
    }

    // The requirement of a kind and an id, as a call names it: a kind that is unknown or an id out of range is refused.
    #[tactic(auto, unfolding(crate::specs::Tables::decoded))]
    pub fn of(kind: u32, id: u32) -> Result<Requirement, Refusal>
        ensures { result ≡ decoded kind id }
    {
        let is_in_range = if kind == codes::SINGLE {
            id < limits::VERSION_SETS as u32
        } else {
            kind == codes::UNION && id < limits::UNIONS as u32
        };
        if !is_in_range {
            return Err(Refusal::BadId);
        }
        Ok(Requirement::named(kind, id))
    }

    // Its key: the version set of a single, or 256 more than a union.
    pub fn key(self) -> usize
        ensures { result ≡ key_of self }
    {
        match self {
            Requirement::Single(set) => wide(set),
            Requirement::Union(union) => limits::VERSION_SETS + wide(union),
        }
    }
}

// How many lists and how many cells a call copied.
#[derive(Clone, Copy, PartialEq, Eq)]
pub struct Copied {
    pub lists: u32,
    pub cells: u32,
}

// Takes the candidate lists of a requirement into the store, once: list j is the next lengths[j] cells.
pub fn load_candidates(
    s: &mut [u32],
    kind: u32,
    id: u32,
    lengths: &[u32],
    cells: &[u32],
) -> Result<(), Refusal>
    ensures answer { result ≡ answer_any s.old (load_row s.old kind id lengths.now cells.now) }
    ensures left { s.new ≡ left_any s.old (load_row s.old kind id lengths.now cells.now) }
{
    shape::check(s)?;
    candidates::load_candidates(s, kind, id, lengths, cells)
}

// Copies the candidate lists of a requirement out: their lengths and their cells, one after the other.
#[tactic(auto, unfolding(crate::specs::Copy::copy_sound_lengths, crate::specs::Copy::copy_sound_cells))]
pub fn copy_candidates(
    s: &[u32],
    kind: u32,
    id: u32,
    lengths: &mut [u32],
    cells: &mut [u32],
) -> Result<Copied, Refusal>
    ensures answer { result ≡ answer_any s.now (copy_row s.now kind id (length lengths.old) (length cells.old)) }
    ensures lengths_left { lengths.new ≡ copy_lengths s.now kind id lengths.old cells.old }
    ensures cells_left { cells.new ≡ copy_cells s.now kind id lengths.old cells.old }
{
    shape::check(s)?;
    candidates::copy_candidates(s, kind, id, lengths, cells)
}
