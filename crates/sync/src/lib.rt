// Sync: the queue learns which variables were touched since the last one.

#![tactic(auto)]

ghost use Rattle.std.specs.Prelude.{◌≡◌};
ghost use Rattle.sync.specs.Sync.{sync_row};
ghost use Rattle.store.specs.Row.{answer_any, left_any};

use store::{Refusal, shape};

pub mod decide_queue;
pub mod occurrences;
pub mod table;

// Routes every touched variable, and answers how many entries were touched; the mirror is then the trail.
pub fn sync(s: &mut [u32]) -> Result<u32, Refusal>
    ensures answer { result ≡ answer_any s.old (sync_row s.old) }
    ensures left { s.new ≡ left_any s.old (sync_row s.old) }
{
    shape::check(s)?;
    Ok(decide_queue::sync(s))
}
