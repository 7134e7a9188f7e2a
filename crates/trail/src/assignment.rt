// The value of a variable under the present assignment. The three tests are one line each over `value_of`: one of them with the value as a
// parameter would read no plainer where it is called. `variable < variables` is the range of an index that is read from a word, and `Sound`
// gives it at each place: a type of its own would need a constructor, with a proof, at each read.
ghost use Rattle.std.specs.Prelude.{◌≡◌, ◌<◌};
ghost use Rattle.store.specs.Limits.{variables};
ghost use Rattle.store.specs.Shape.{Sound};
ghost use Rattle.rules.specs.Walk.{is_true, is_false, is_undecided};
ghost use Rattle.trail.specs.Assignment.{assigned};

use crate::decision_map;
use rules::Value;
use store::{areas, wide};

#[tactic(auto, unfolding(crate::specs::Assignment::assigned))]
fn value_of(s: &[u32], variable: u32) -> Value
    requires sound { Sound s.now }
    requires known { variable < variables }
    ensures { result ≡ assigned s.now variable }
{
    decision_map::value(areas::MAP.at(s, wide(variable)))
}

pub fn is_true(s: &[u32], variable: u32) -> bool
    requires sound { Sound s.now }
    requires known { variable < variables }
    ensures { result ≡ is_true (assigned s.now variable) }
{
    value_of(s, variable) == Value::True
}

pub fn is_false(s: &[u32], variable: u32) -> bool
    requires sound { Sound s.now }
    requires known { variable < variables }
    ensures { result ≡ is_false (assigned s.now variable) }
{
    value_of(s, variable) == Value::False
}

pub fn is_undecided(s: &[u32], variable: u32) -> bool
    requires sound { Sound s.now }
    requires known { variable < variables }
    ensures { result ≡ is_undecided (assigned s.now variable) }
{
    value_of(s, variable) == Value::Undecided
}
