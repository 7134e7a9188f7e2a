// The settings of a store: each name's activity and whether it is hot, and the mode. Each public call tests the store's shape first.

#![tactic(auto)]

ghost use Rattle.std.specs.Prelude.{◌≡◌};
ghost use Rattle.settings.specs.Settings.{activity_row, hot_row, mode_now_row, mode_row, name_row};
ghost use Rattle.store.specs.Row.{answer_any, left_any};

use store::{Refusal, areas, shape};

pub mod tuning;

// What is set of a name: the bits of its activity, and 1 if it is hot. `hot` is a number, since `name_row` gives the stored word, which C is
// handed.
#[derive(Clone, Copy, PartialEq, Eq)]
pub struct Name {
    pub activity: u32,
    pub hot: u32,
}

// Makes a name hot, for good.
pub fn mark_hot(s: &mut [u32], name: u32) -> Result<(), Refusal>
    ensures answer { result ≡ answer_any s.old (hot_row s.old name) }
    ensures left { s.new ≡ left_any s.old (hot_row s.old name) }
{
    shape::check(s)?;
    tuning::mark_hot(s, name)
}

// Gives a name an activity.
pub fn set_activity(s: &mut [u32], name: u32, activity: f32) -> Result<(), Refusal>
    ensures answer { result ≡ answer_any s.old (activity_row s.old name activity) }
    ensures left { s.new ≡ left_any s.old (activity_row s.old name activity) }
{
    shape::check(s)?;
    tuning::set_activity(s, name, activity)
}

// Sets the mode: 1 standard, 0 not.
pub fn set_mode(s: &mut [u32], mode: u32) -> Result<(), Refusal>
    ensures answer { result ≡ answer_any s.old (mode_row s.old mode) }
    ensures left { s.new ≡ left_any s.old (mode_row s.old mode) }
{
    shape::check(s)?;
    tuning::set_mode(s, mode)
}

// The mode: 1 standard, 0 not. A number, since `mode_now_row` gives the stored word, which C is handed.
pub fn mode_of(s: &[u32]) -> Result<u32, Refusal>
    ensures { result ≡ answer_any s.now (mode_now_row s.now) }
{
    shape::check(s)?;
    Ok(areas::MODE.at(s, 0))
}

// A name's activity and whether it is hot.
pub fn name_of(s: &[u32], name: u32) -> Result<Name, Refusal>
    ensures { result ≡ answer_any s.now (name_row s.now name) }
{
    shape::check(s)?;
    tuning::name_of(s, name)
}
