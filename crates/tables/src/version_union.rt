// Unions of version sets in a store of sound shape. The crate's public calls test the shape and then call these.
ghost use Rattle.std.specs.Prelude.{◌≡◌, ◌≤◌, ◌<◌, length};
ghost use Rattle.store.specs.Layout.{words};
ghost use Rattle.store.specs.Limits.{unions, union_room};
ghost use Rattle.store.specs.Row.{answer_sound, left_sound};
ghost use Rattle.store.specs.Shape.{Sound, every};
ghost use Rattle.tables.specs.Union.{new_at, distinct, members_put, load_union_row};
ghost use Rattle.tables.specs.VersionSet.{set_loaded};

use crate::is_loaded;
use store::{Refusal, areas, limits, wide};

// Whether each member is a loaded version set.
fn all_loaded(s: &[u32], members: &[u32]) -> bool
    requires { words ≤ length s.now }
    ensures { result ≡ every (set_loaded s.now) members.now }
{
    members
        .iter()
        .all(|set| is_loaded(s, areas::SET_NAMES, *set))
}

// Whether no place before place i of a list holds the same word.
fn new_at(list: &[u32], i: usize) -> bool
    requires { i < length list.now }
    ensures { result ≡ new_at list.now i }
{
    !list[..i].contains(&list[i])
}

// Whether no word of a list stands twice. It looks back, so that a long list of few words ends early.
fn distinct(list: &[u32]) -> bool
    ensures { result ≡ distinct list.now }
{
    (0..list.len()).all(|i| new_at(list, i))
}

// What loading would answer.
#[tactic(auto, unfolding(crate::specs::Union::load_union_tests))]
fn load_case(s: &[u32], union: u32, members: &[u32]) -> Result<(), Refusal>
    requires { words ≤ length s.now }
    ensures { result ≡ answer_sound (load_union_row s.now union members.now) }
{
    if limits::UNIONS as u32 <= union || !all_loaded(s, members) {
        return Err(Refusal::BadId);
    }
    if !distinct(members) {
        return Err(Refusal::Malformed);
    }
    if is_loaded(s, areas::UNION_SIZES, union) {
        return Err(Refusal::LoadedTwice);
    }
    if limits::UNION_ROOM < members.len() {
        return Err(Refusal::NoRoom);
    }
    Ok(())
}

// Writes the members into the union's eight places.
#[tactic(auto, unfolding(crate::specs::Union::members_put))]
fn put_members(s: &mut [u32], union: u32, members: &[u32])
    requires long { words ≤ length s.old }
    requires known { union < unions }
    requires few { length members.now ≤ union_room }
    ensures { s.new ≡ members_put s.old union members.now }
{
    areas::UNION_SIZES.put(s, wide(union), members.len() as u32 + 1);
    areas::UNION_SETS.put_run(s, limits::UNION_ROOM * wide(union), members);
}

#[tactic(auto, unfolding(crate::specs::Union::load_union_tests))]
pub fn load(s: &mut [u32], union: u32, members: &[u32]) -> Result<(), Refusal>
    requires { Sound s.old }
    ensures answer { result ≡ answer_sound (load_union_row s.old union members.now) }
    ensures left { s.new ≡ left_sound s.old (load_union_row s.old union members.now) }
{
    load_case(s, union, members)?;
    put_members(s, union, members);
    Ok(())
}
