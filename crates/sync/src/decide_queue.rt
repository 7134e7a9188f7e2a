// Sync on a store of sound shape. The crate's public call tests the shape and then calls it.
ghost use Rattle.std.specs.Prelude.{true, ◌≡◌, ◌+◌, ◌≤◌, ◌<◌};
ghost use Rattle.store.specs.Area.{at};
ghost use Rattle.store.specs.Layout.{clause_count};
ghost use Rattle.store.specs.Limits.{requirements};
ghost use Rattle.store.specs.Shape.{Sound};
ghost use Rattle.sync.specs.Sync.{touches_in, broken_at, wakes_at, spoils_at, block, DirtyBlock, spoiled_from, woken_words, spoiled_words, copied_words, mirrored_words, sync_left};
ghost use Rattle.trail.specs.Assignment.{floor_of};
ghost use Rattle.trail.specs.Entries.{entries};

use crate::occurrences;
use crate::table::Touched;
use store::{areas, codes, limits, shape, wide};
use trail::{assignment, entries};

// How many caches are looked at together. It divides their number.
const BLOCK: usize = 32;

// Whether a cache says "satisfied by x", x is not true, and a candidate is touched.
#[tactic(auto, unfolding(crate::specs::Sync::broken_at, meaning::specs::Standing::cache_of, meaning::specs::Standing::cache_by))]
fn breaks(s: &[u32], touched: &Touched, key: usize) -> bool
    requires sound { Sound s.now }
    requires known { key < requirements }
    ensures { result ≡ broken_at s.now touched.now key }
{
    areas::CACHE_STATES.at(s, key) == codes::SATISFIED
        && !assignment::is_true(s, areas::CACHE_CANDIDATES.at(s, key))
        && occurrences::in_requirement(s, touched, key)
}

// Whether a clause wakes.
#[tactic(auto, unfolding(crate::specs::Sync::wakes_at, crate::specs::Sync::broken_at, meaning::specs::Standing::of_clause))]
fn wakes(s: &[u32], touched: &Touched, k: usize) -> bool
    requires sound { Sound s.now }
    requires known { k < at clause_count 0 s.now }
    ensures { result ≡ wakes_at s.now touched.now k }
{
    let parent = areas::CLAUSE_PARENTS.at(s, k);
    assignment::is_true(s, parent)
        && (touched.has(parent)
            || occurrences::in_condition(s, touched, areas::CLAUSE_CONDITIONS.at(s, k))
            || breaks(s, touched, wide(areas::CLAUSE_REQUIREMENTS.at(s, k))))
}

// Sets the marks of the clauses that wake.
#[tactic(auto, using(crate::proofs::Turns::waking))]
fn wake_clauses(s: &mut [u32], touched: &Touched)
    requires { Sound s.old }
    ensures { s.new ≡ woken_words s.old touched.now }
{
    let n = wide(areas::CLAUSE_COUNT.at(s, 0));
    for k in 0..n {
        if wakes(s, touched, k) {
            areas::QUEUED.put(s, k, 1);
        }
    }
}

// Whether a cache becomes dirty; one that is dirty already does not.
#[tactic(auto, unfolding(crate::specs::Sync::spoils_at, crate::specs::Sync::broken_at, meaning::specs::Standing::cache_of, meaning::specs::Standing::cache_by))]
fn spoils(s: &[u32], touched: &Touched, key: usize) -> bool
    requires sound { Sound s.now }
    requires known { key < requirements }
    ensures { result ≡ spoils_at s.now touched.now key }
{
    let state = areas::CACHE_STATES.at(s, key);
    if state == codes::DIRTY {
        return false;
    }
    if state == codes::SATISFIED {
        return breaks(s, touched, key);
    }
    occurrences::in_requirement(s, touched, key)
}

// Whether the caches of a block are all dirty: their states put together are, and no number is below that one. The contract says
// what a yes means and nothing of a no: the block is then walked, which is right whatever is in it.
#[tactic(auto, using(crate::proofs::Turns::ceiling_dirty))]
fn all_dirty(s: &[u32], from: usize) -> bool
    requires sound { Sound s.now }
    requires inside { from + block ≤ requirements }
    ensures { result ≡ true → DirtyBlock s.now from }
{
    let states = areas::CACHE_STATES.words(s);
    shape::ceiling(&states[from..from + BLOCK]) == codes::DIRTY
}

// Makes the caches of a block dirty that become so.
#[tactic(auto, using(crate::proofs::Turns::spoiling))]
fn spoil_block(s: &mut [u32], touched: &Touched, from: usize)
    requires sound { Sound s.old }
    requires inside { from + block ≤ requirements }
    ensures { s.new ≡ spoiled_from from s.old touched.now (from + block) }
{
    let end = from + BLOCK;
    for key in from..end {
        if spoils(s, touched, key) {
            areas::CACHE_STATES.put(s, key, codes::DIRTY);
        }
    }
}

// Makes the caches dirty that become so. Most are dirty already, and a block of such is passed over.
#[tactic(auto, using(crate::proofs::Turns::spoiling))]
fn spoil_caches(s: &mut [u32], touched: &Touched)
    requires { Sound s.old }
    ensures { s.new ≡ spoiled_words s.old touched.now }
{
    for i in 0..limits::REQUIREMENTS / BLOCK {
        let from = i * BLOCK;
        if !all_dirty(s, from) {
            spoil_block(s, touched, from);
        }
    }
}

// Copies the trail's entries at or beyond the floor into the mirror.
#[tactic(auto, using(crate::proofs::Turns::copying))]
fn copy_entries(s: &mut [u32], floor: usize, len: usize)
    requires sound { Sound s.old }
    requires the_floor { floor ≡ floor_of s.old }
    requires the_length { len ≡ entries s.old }
    ensures { s.new ≡ copied_words s.old }
{
    for i in floor..len {
        let v = entries::variable_at(s, i);
        areas::MIRROR.put(s, i, v);
    }
}

// Makes the mirror the trail, and the floor its length.
#[tactic(auto, unfolding(crate::specs::Sync::mirrored_words))]
fn renew_mirror(s: &mut [u32])
    requires { Sound s.old }
    ensures { s.new ≡ mirrored_words s.old }
{
    let floor = wide(entries::floor(s));
    let len = entries::length(s);
    copy_entries(s, floor, wide(len));
    areas::MIRROR_LENGTH.put(s, 0, len);
    entries::move_floor(s, len);
}

// How many entries are touched.
#[tactic(auto, unfolding(crate::specs::Sync::touches_in))]
fn touches(s: &[u32]) -> u32
    requires { Sound s.now }
    ensures { result ≡ touches_in s.now }
{
    let floor = entries::floor(s);
    let old = areas::MIRROR_LENGTH.at(s, 0) - floor;
    old + (entries::length(s) - floor)
}

// Routes every touched variable, and says how many touches there were.
pub fn sync(s: &mut [u32]) -> u32
    requires { Sound s.old }
    ensures touches { result ≡ touches_in s.old }
    ensures left { s.new ≡ sync_left s.old }
{
    let n = touches(s);
    let mut touched = Touched::none();
    touched.enter_touched(s);
    wake_clauses(s, &touched);
    spoil_caches(s, &touched);
    renew_mirror(s);
    n
}
