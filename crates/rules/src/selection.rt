// The selection: the tests of the walk on values, whatever holds the clauses.
ghost use Rattle.std.specs.Prelude.{cond, ◌≡◌, ◌≤◌};
ghost use Rattle.rules.specs.Activity.{last_activity};
ghost use Rattle.rules.specs.Walk.{better, shields, stops_by};

use crate::{Best, ROOT, activity};

// Whether a best whose parent is the root shields a clause, by the parents of the two: `above` is the one of the best.
pub fn is_shielded(above: u32, parent: u32) -> bool
    ensures { result ≡ shields above parent }
{
    above == ROOT && parent != ROOT
}

// Whether the walk stops at a best; `highest` is the largest stored activity, which only a narrow walk asks for. `narrow` is a bool as in
// `stops_by`: what makes a walk narrow is of the environment.
pub fn stops(b: Best, narrow: bool, highest: u32) -> bool
    requires best_stored { b.activity ≤ last_activity }
    requires highest_stored { highest ≤ last_activity }
    ensures { result ≡ stops_by narrow highest b }
{
    b.count == 1 || (narrow && activity::same(b.activity, highest))
}

// The better of two bests: the second if its activity is strictly higher and its count strictly lower.
pub fn better_of(b: Best, d: Best) -> Best
    requires b_stored { b.activity ≤ last_activity }
    requires d_stored { d.activity ≤ last_activity }
    ensures { result ≡ better 1 b d }
{
    if activity::higher(b.activity, d.activity) && d.count < b.count {
        d
    } else {
        b
    }
}
