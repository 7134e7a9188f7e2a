// Examining a clause, by its rank.
ghost use Rattle.std.specs.Prelude.{◌&&◌, ◌≡◌, ◌≤◌, ◌<◌};
ghost use Rattle.store.specs.Area.{at};
ghost use Rattle.store.specs.Layout.{clause_count};
ghost use Rattle.store.specs.Limits.{variables, disjunctions};
ghost use Rattle.store.specs.Shape.{Sound};
ghost use Rattle.rules.specs.Walk.{all_false};
ghost use Rattle.trail.specs.Assignment.{assigned, assigned_true};
ghost use Rattle.meaning.specs.View.{literals_at};
ghost use Rattle.examine.specs.Cache.{finding_at, filled, examined};

use crate::{caches, condition, lists};
use clauses::{Clause, records};
use rules::Finding;
use store::areas;
use trail::assignment;

// Whether a clause is active: its parent is true and its condition passes.
fn is_active(s: &[u32], clause: Clause) -> bool
    requires sound { Sound s.now }
    requires parent_known { clause.parent < variables }
    requires condition_known { clause.condition ≤ disjunctions }
    ensures { result ≡ assigned_true s.now clause.parent && all_false (assigned s.now) (literals_at s.now clause.condition) }
{
    assignment::is_true(s, clause.parent) && condition::passes(s, clause.condition)
}

// What a clause is; an active clause's cache is filled.
fn examine(s: &mut [u32], k: usize) -> Finding
    requires sound { Sound s.old }
    requires known { k < at clause_count 0 s.old }
    ensures found { result ≡ finding_at s.old k }
    ensures left { s.new ≡ filled s.old k }
{
    let clause = records::clause_at(s, k);
    if !is_active(s, clause) {
        return Finding::Shut;
    }
    let key = clause.requirement.key();
    match caches::recall(s, key) {
        Some(known) => Finding::from(known),
        None => {
            let state = lists::eval_at(s, key);
            caches::save(s, key, state);
            Finding::from(state)
        }
    }
}

// Examines a queued clause, and drops it from the queue if it is shut.
#[tactic(auto, unfolding(crate::specs::Cache::examined))]
pub fn examine_queued(s: &mut [u32], k: usize) -> Finding
    requires sound { Sound s.old }
    requires known { k < at clause_count 0 s.old }
    ensures found { result ≡ finding_at s.old k }
    ensures left { s.new ≡ examined s.old k }
{
    let found = examine(s, k);
    if found == Finding::Shut {
        areas::QUEUED.put(s, k, 0);
    }
    found
}
