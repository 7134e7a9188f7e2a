// What other crates read of the trail's entries, and the sync floor, which the queue moves. `length` and `floor` are of one form, a word of an
// area, and keep names of their own: contracts speak of `entries` and of `floor_of`, not of the areas. An entry's place is a plain number, `k < trail_room`,
// as loops run over it.
ghost use Rattle.std.specs.Prelude.{◌≡◌, ◌≤◌, ◌<◌, length};
ghost use Rattle.store.specs.Layout.{words};
ghost use Rattle.store.specs.Limits.{trail_room};
ghost use Rattle.trail.specs.Assignment.{variable_at, floor_of, floor_moved};
ghost use Rattle.trail.specs.Entries.{entries, decision_at};

use crate::Decision;
use store::areas;

// How many entries there are.
pub fn length(s: &[u32]) -> u32
    requires { words ≤ length s.now }
    ensures { result ≡ entries s.now }
{
    areas::TRAIL_LENGTH.at(s, 0)
}

// The variable of entry k.
pub fn variable_at(s: &[u32], k: usize) -> u32
    requires long { words ≤ length s.now }
    requires inside { k < trail_room }
    ensures { result ≡ variable_at s.now k }
{
    areas::TRAIL_VARIABLES.at(s, k)
}

// Entry k as a decision.
#[tactic(auto, unfolding(crate::specs::Entries::decision_at))]
pub fn decision_at(s: &[u32], k: usize) -> Decision
    requires long { words ≤ length s.now }
    requires inside { k < trail_room }
    ensures { result ≡ decision_at s.now k }
{
    Decision {
        variable: areas::TRAIL_VARIABLES.at(s, k),
        value: areas::TRAIL_VALUES.at(s, k),
        clause: areas::TRAIL_CLAUSES.at(s, k),
    }
}

// The sync floor: below it trail and mirror agree.
pub fn floor(s: &[u32]) -> u32
    requires { words ≤ length s.now }
    ensures { result ≡ floor_of s.now }
{
    areas::SYNC_FLOOR.at(s, 0)
}

// Moves the sync floor.
pub fn move_floor(s: &mut [u32], n: u32)
    requires { words ≤ length s.old }
    ensures { s.new ≡ floor_moved n s.old }
{
    areas::SYNC_FLOOR.put(s, 0, n)
}
