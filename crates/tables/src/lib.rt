// The tables: version sets, unions of them, disjunctions and condition nodes, each loaded once. Each public call tests the store's shape first.

#![tactic(auto)]

ghost use Rattle.std.specs.Prelude.{◌≡◌, ◌+◌, ◌≤◌, length};
ghost use Rattle.tables.specs.Loaded.{loaded};
ghost use Rattle.tables.specs.VersionSet.{load_version_set_row};
ghost use Rattle.tables.specs.Union.{load_union_row};
ghost use Rattle.tables.specs.Disjunction.{load_disjunction_row};
ghost use Rattle.tables.specs.Condition.{load_condition_row};
ghost use Rattle.store.specs.Row.{answer_any, left_any};

use store::area::Area;
use store::{Refusal, shape, wide};

pub mod condition;
pub mod disjunction;
pub mod version_set;
pub mod version_union;

// Where the literals of a disjunction begin, and how many there are.
#[derive(Clone, Copy, PartialEq, Eq)]
pub struct Literals {
    pub start: u32,
    pub count: u32,
}

// Whether number i of a table is loaded, by the area whose word is above 0 then. A number out of range never is.
#[tactic(auto, using(crate::proofs::Loading::by_range), unfolding(crate::specs::Loaded::loaded))]
pub fn is_loaded(s: &[u32], area: Area, i: u32) -> bool
    requires { area.base + area.size ≤ length s.now }
    ensures { result ≡ loaded area s.now i }
{
    wide(i) < area.size && 0 < area.at(s, wide(i))
}

// Loads a version set with its name.
pub fn load_version_set(s: &mut [u32], set: u32, name: u32) -> Result<(), Refusal>
    ensures answer { result ≡ answer_any s.old (load_version_set_row s.old set name) }
    ensures left { s.new ≡ left_any s.old (load_version_set_row s.old set name) }
{
    shape::check(s)?;
    version_set::load(s, set, name)
}

// Loads a union of version sets, none of them twice.
pub fn load_union(s: &mut [u32], union: u32, members: &[u32]) -> Result<(), Refusal>
    ensures answer { result ≡ answer_any s.old (load_union_row s.old union members.now) }
    ensures left { s.new ≡ left_any s.old (load_union_row s.old union members.now) }
{
    shape::check(s)?;
    version_union::load(s, union, members)
}

// Loads a disjunction: literal j is variables[j] with signs[j] (0 plain, 1 negated).
pub fn load_disjunction(
    s: &mut [u32],
    disjunction: u32,
    variables: &[u32],
    signs: &[u32],
) -> Result<(), Refusal>
    ensures answer { result ≡ answer_any s.old (load_disjunction_row s.old disjunction variables.now signs.now) }
    ensures left { s.new ≡ left_any s.old (load_disjunction_row s.old disjunction variables.now signs.now) }
{
    shape::check(s)?;
    disjunction::load(s, disjunction, variables, signs)
}

// Loads a condition node: kind 0 is a leaf of the version set `left`, 1 the `and` and 2 the `or` of two nodes.
pub fn load_condition(
    s: &mut [u32],
    node: u32,
    kind: u32,
    left: u32,
    right: u32,
) -> Result<(), Refusal>
    ensures answer { result ≡ answer_any s.old (load_condition_row s.old node kind left right) }
    ensures left { s.new ≡ left_any s.old (load_condition_row s.old node kind left right) }
{
    shape::check(s)?;
    condition::load(s, node, kind, left, right)
}
