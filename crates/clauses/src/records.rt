// The clause records of a store: clause k is the k-th in position order.
ghost use Rattle.std.specs.Prelude.{◌≡◌, ◌≤◌, ◌<◌, length};
ghost use Rattle.store.specs.Layout.{words};
ghost use Rattle.store.specs.Limits.{clauses};
ghost use Rattle.store.specs.Shape.{Sound};
ghost use Rattle.clauses.specs.Record.{of_key, clause_at, parent_at};
ghost use Rattle.rules.specs.Store.{rank};

use crate::Clause;
use requirement::Requirement;
use store::{areas, limits};

// The requirement of a key: a single's version set, or 256 more than a union. It stands here and not beside `Requirement::key`, since keys are
// read back from clause records alone: `of_key` is their definition.
fn of_key(key: u32) -> Requirement
    ensures { result ≡ of_key key }
{
    if key < limits::VERSION_SETS as u32 {
        return Requirement::Single(key);
    }
    Requirement::Union(key - limits::VERSION_SETS as u32)
}

// The record of clause k, with its requirement inside it: at its rank, what registering has put there (`clause-here`).
#[tactic(auto, unfolding(crate::specs::Record::clause_at))]
pub fn clause_at(s: &[u32], k: usize) -> Clause
    requires sound { Sound s.now }
    requires known { k < clauses }
    ensures { result ≡ clause_at s.now k }
{
    let requirement = of_key(areas::CLAUSE_REQUIREMENTS.at(s, k));
    Clause {
        parent: areas::CLAUSE_PARENTS.at(s, k),
        requirement,
        condition: areas::CLAUSE_CONDITIONS.at(s, k),
        id: areas::CLAUSE_IDS.at(s, k),
    }
}

// The rank of a new clause among n: behind the last clause of its parent, or behind all.
#[tactic(auto, using(crate::proofs::Ranking::by_behind))]
pub fn rank_of(s: &[u32], parent: u32, n: usize) -> usize
    requires long { words ≤ length s.now }
    requires few { n ≤ clauses }
    ensures { result ≡ rank (parent_at s.now) parent n }
{
    for k in (0..n).rev() {
        if areas::CLAUSE_PARENTS.at(s, k) == parent {
            return k + 1;
        }
    }
    n
}
