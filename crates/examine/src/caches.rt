// The cache of a requirement: reading it, and keeping a state in it.
ghost use Rattle.std.specs.Prelude.{◌≡◌, ◌≤◌, ◌<◌, length};
ghost use Rattle.store.specs.Layout.{words};
ghost use Rattle.store.specs.Limits.{requirements};
ghost use Rattle.meaning.specs.Standing.{cache_of};
ghost use Rattle.examine.specs.Cache.{cached, saved};

use rules::State;
use store::{areas, codes};

// What the cache says: none while it is dirty.
#[tactic(auto, unfolding(meaning::specs::Standing::cache_of, meaning::specs::Standing::cache_by))]
pub fn recall(s: &[u32], key: usize) -> Option<State>
    requires long { words ≤ length s.now }
    requires known { key < requirements }
    ensures { result ≡ cache_of s.now key }
{
    let state = areas::CACHE_STATES.at(s, key);
    if state == codes::DIRTY {
        return None;
    }
    let candidate = areas::CACHE_CANDIDATES.at(s, key);
    if state == codes::SATISFIED {
        return Some(State::Satisfied(candidate));
    }
    let name = areas::CACHE_NAMES.at(s, key);
    let count = areas::CACHE_COUNTS.at(s, key);
    Some(State::Frontier {
        candidate,
        name,
        count,
    })
}

// Writes the four words of a cache.
#[tactic(auto, unfolding(crate::specs::Cache::cached))]
fn write_cache(s: &mut [u32], key: usize, state: u32, candidate: u32, name: u32, count: u32)
    requires long { words ≤ length s.old }
    requires known { key < requirements }
    ensures { s.new ≡ cached s.old key state candidate name count }
{
    areas::CACHE_STATES.put(s, key, state);
    areas::CACHE_CANDIDATES.put(s, key, candidate);
    areas::CACHE_NAMES.put(s, key, name);
    areas::CACHE_COUNTS.put(s, key, count);
}

// Keeps a state in the cache; a dead requirement's cache stays dirty.
#[tactic(auto, unfolding(crate::specs::Cache::saved))]
pub fn save(s: &mut [u32], key: usize, state: State)
    requires long { words ≤ length s.old }
    requires known { key < requirements }
    ensures { s.new ≡ saved s.old key state }
{
    match state {
        State::Satisfied(x) => write_cache(s, key, codes::SATISFIED, x, 0, 0),
        State::Frontier {
            candidate,
            name,
            count,
        } => write_cache(s, key, codes::FRONTIER, candidate, name, count),
        State::Dead => {}
    }
}
