// Conditions under the present assignment: a condition passes if every literal of it is false.
ghost use Rattle.std.specs.Prelude.{◌≡◌, ◌+◌, ◌≤◌, ◌<◌};
ghost use Rattle.store.specs.Limits.{disjunctions, literal_room};
ghost use Rattle.store.specs.Shape.{Sound};
ghost use Rattle.rules.specs.Walk.{literal_false, all_false};
ghost use Rattle.meaning.specs.View.{literal_at, literals_at};
ghost use Rattle.trail.specs.Assignment.{assigned};
ghost use Rattle.rules.specs.Numbers.{from};

use store::{areas, wide};
use tables::disjunction;
use trail::assignment;

// Whether a literal is false: its variable is decided, and false (true, if negated).
#[tactic(auto, unfolding(meaning::specs::View::literal_at))]
fn literal_false(s: &[u32], i: usize) -> bool
    requires sound { Sound s.now }
    requires known { i < literal_room }
    ensures { result ≡ literal_false (assigned s.now) (literal_at s.now i) }
{
    let variable = areas::LITERAL_VARIABLES.at(s, i);
    if areas::LITERAL_SIGNS.at(s, i) == 1 {
        assignment::is_true(s, variable)
    } else {
        assignment::is_false(s, variable)
    }
}

// Whether each of n literals is false.
fn all_false(s: &[u32], start: usize, n: usize) -> bool
    requires sound { Sound s.now }
    requires inside { start + n ≤ literal_room }
    ensures { result ≡ all_false (assigned s.now) (from (literal_at s.now) start n) }
{
    (start..start + n).all(|i| literal_false(s, i))
}

// Whether a condition passes, as a clause stores it.
#[tactic(auto, using(crate::proofs::Literals::literals))]
pub fn passes(s: &[u32], condition: u32) -> bool
    requires sound { Sound s.now }
    requires known { condition ≤ disjunctions }
    ensures { result ≡ all_false (assigned s.now) (literals_at s.now condition) }
{
    let literals = disjunction::literals_under(s, condition);
    all_false(s, wide(literals.start), wide(literals.count))
}
