// Clauses: their records in position order, and registering. Each public call tests the store's shape first.

#![tactic(auto)]

ghost use Rattle.std.specs.Prelude.{◌≡◌};
ghost use Rattle.clauses.specs.Register.{register_row};
ghost use Rattle.store.specs.Row.{answer_any, left_any};

use requirement::Requirement;
use store::{Refusal, shape};

pub mod records;
pub mod registering;

// A clause as it is stored, with its requirement, single or union, inside it: its condition is 0 for none, else one more than the disjunction.
// No option, since `clause_at` and the theorem `clause-here` speak of the stored word.
#[derive(Clone, Copy, PartialEq, Eq)]
pub struct Clause {
    pub parent: u32,
    pub requirement: Requirement,
    pub condition: u32,
    pub id: u32,
}

// Registers a clause: it goes behind the clauses of its parent, and is queued if the parent is true.
pub fn register(
    s: &mut [u32],
    parent: u32,
    kind: u32,
    requirement: u32,
    condition: u32,
    clause: u32,
) -> Result<(), Refusal>
    ensures answer { result ≡ answer_any s.old (register_row s.old parent kind requirement condition clause) }
    ensures left { s.new ≡ left_any s.old (register_row s.old parent kind requirement condition clause) }
{
    shape::check(s)?;
    registering::register(s, parent, kind, requirement, condition, clause)
}
