// The candidate lists under the present assignment: which candidate is true, which is the first undecided one, and how many are.
ghost use Rattle.std.specs.Prelude.{[], ◌∷◌, ◌≡◌, ◌+◌, ◌-◌, ◌≤◌, ◌<◌, length};
ghost use Rattle.std.specs.List.{All};
ghost use Rattle.store.specs.Limits.{variables, requirements, lists, cell_room};
ghost use Rattle.store.specs.Shape.{Sound};
ghost use Rattle.requirement.specs.Tables.{first_slot, list_count, cells_of};
ghost use Rattle.rules.specs.Walk.{flattened, first_true, count_undecided, frontier, evaluate};
ghost use Rattle.meaning.specs.View.{list_at, lists_at};
ghost use Rattle.trail.specs.Assignment.{assigned};
ghost use Rattle.rules.specs.Numbers.{from};

use requirement::candidates;
use rules::State;
use std::ops::Range;
use store::{areas, wide};
use trail::assignment;

// The candidates of a list, each a variable.
#[tactic(auto, using(crate::proofs::Cells::part), unfolding(requirement::specs::Tables::cells_of))]
pub fn candidates_of<'a>(s: &'a [u32], slot: usize) -> &'a [u32]
    requires sound { Sound s.now }
    requires known { slot < lists }
    ensures cells { result.now ≡ cells_of s.now slot }
    ensures named { All (λ x. x < variables) result.now }
{
    let start = wide(areas::LIST_STARTS.at(s, slot));
    let len = wide(areas::LIST_LENGTHS.at(s, slot));
    &areas::CANDIDATES.words(s)[start..start + len]
}

// The first candidate of a list that is true.
fn list_true(s: &[u32], slot: usize) -> Option<u32>
    requires sound { Sound s.now }
    requires known { slot < lists }
    ensures { result ≡ first_true (assigned s.now) (cells_of s.now slot) }
{
    let cells = candidates_of(s, slot);
    cells.iter().copied().find(|x| assignment::is_true(s, *x))
}

// How many cells are undecided. Each adds one or nothing, so that the processor has nothing to guess: by `filter` and `count` it guesses at
// each cell, and a long list of which half is undecided takes several times as long.
fn count_undecided(s: &[u32], cells: &[u32]) -> u32
    requires sound { Sound s.now }
    requires named { All (λ x. x < variables) cells.now }
    requires few { length cells.now ≤ cell_room }
    ensures { result ≡ count_undecided (assigned s.now) cells.now }
{
    cells
        .iter()
        .map(|x| u32::from(assignment::is_undecided(s, *x)))
        .sum()
}

// The first undecided candidate of a list, with the list's name and its number of undecided cells.
fn list_frontier(s: &[u32], slot: usize) -> State
    requires sound { Sound s.now }
    requires known { slot < lists }
    ensures { result ≡ frontier (assigned s.now) (list_at s.now slot ∷ []) }
{
    let cells = candidates_of(s, slot);
    match cells
        .iter()
        .copied()
        .find(|x| assignment::is_undecided(s, *x))
    {
        Some(candidate) => {
            let name = candidates::name_at(s, slot);
            let count = count_undecided(s, cells);
            State::Frontier {
                candidate,
                name,
                count,
            }
        }
        None => State::Dead,
    }
}

// The lists of a requirement: none while its table is not loaded.
#[tactic(auto, using(crate::proofs::Scans::slots))]
pub fn slots_of(s: &[u32], key: usize) -> Range<usize>
    requires sound { Sound s.now }
    requires known { key < requirements }
    ensures first { result.start ≡ first_slot key }
    ensures behind { result.end ≡ first_slot key + list_count s.now key }
    ensures inside { result.end ≤ lists }
    ensures whole { from (list_at s.now) result.start (result.end - result.start) ≡ lists_at s.now key }
{
    let slot = candidates::first_slot(key);
    let n = candidates::list_count(s, key);
    slot..slot + n
}

// The first candidate that is true of the lists from a slot on and before `end`.
#[tactic(auto, using(crate::proofs::Scans::scans))]
fn first_true_in(s: &[u32], slot: usize, end: usize) -> Option<u32>
    requires sound { Sound s.now }
    requires inside { end ≤ lists }
    ensures { result ≡ first_true (assigned s.now) (flattened (from (list_at s.now) slot (end - slot))) }
{
    for i in slot..end {
        if let Some(x) = list_true(s, i) {
            return Some(x);
        }
    }
    None
}

// The frontier of these lists: that of the first one that has an undecided candidate.
#[tactic(auto, using(crate::proofs::Scans::scans))]
fn frontier_in(s: &[u32], slot: usize, end: usize) -> State
    requires sound { Sound s.now }
    requires inside { end ≤ lists }
    ensures { result ≡ frontier (assigned s.now) (from (list_at s.now) slot (end - slot)) }
{
    for i in slot..end {
        let state = list_frontier(s, i);
        if state != State::Dead {
            return state;
        }
    }
    State::Dead
}

// What a requirement is: satisfied if a candidate is true, else its frontier.
#[tactic(auto, unfolding(rules::specs::Walk::evaluate))]
pub fn eval_at(s: &[u32], key: usize) -> State
    requires sound { Sound s.now }
    requires known { key < requirements }
    ensures { result ≡ evaluate (assigned s.now) (lists_at s.now key) }
{
    let slots = slots_of(s, key);
    match first_true_in(s, slots.start, slots.end) {
        Some(x) => State::Satisfied(x),
        None => frontier_in(s, slots.start, slots.end),
    }
}
