// Version sets in a store of sound shape. The crate's public calls test the shape and then call these.
ghost use Rattle.std.specs.Prelude.{◌≡◌, ◌≤◌, length};
ghost use Rattle.store.specs.Layout.{words};
ghost use Rattle.store.specs.Row.{answer_sound, left_sound};
ghost use Rattle.store.specs.Shape.{Sound};
ghost use Rattle.tables.specs.VersionSet.{load_version_set_row};

use crate::is_loaded;
use store::{Refusal, areas, limits, wide};

// What loading would answer.
#[tactic(auto, unfolding(crate::specs::VersionSet::load_version_set_tests))]
fn load_case(s: &[u32], set: u32, name: u32) -> Result<(), Refusal>
    requires { words ≤ length s.now }
    ensures { result ≡ answer_sound (load_version_set_row s.now set name) }
{
    if limits::VERSION_SETS as u32 <= set || limits::NAMES as u32 <= name {
        return Err(Refusal::BadId);
    }
    if is_loaded(s, areas::SET_NAMES, set) {
        return Err(Refusal::LoadedTwice);
    }
    Ok(())
}

#[tactic(auto, unfolding(crate::specs::VersionSet::load_version_set_tests))]
pub fn load(s: &mut [u32], set: u32, name: u32) -> Result<(), Refusal>
    requires { Sound s.old }
    ensures answer { result ≡ answer_sound (load_version_set_row s.old set name) }
    ensures left { s.new ≡ left_sound s.old (load_version_set_row s.old set name) }
{
    load_case(s, set, name)?;
    areas::SET_NAMES.put(s, wide(set), name + 1);
    Ok(())
}
