// The walk over the queued clauses of a store of sound shape, in position order. The crate's public call tests the shape
// and that it is synced, and then calls `propose`.
ghost use Rattle.std.specs.Prelude.{true, ◌≡◌, ◌-◌, ◌≤◌, ◌<◌, length};
ghost use Rattle.store.specs.Area.{at};
ghost use Rattle.store.specs.Layout.{words, activities, clause_count, clause_ids};
ghost use Rattle.store.specs.Limits.{clauses, lists, names};
ghost use Rattle.store.specs.Shape.{Sound};
ghost use Rattle.requirement.specs.Tables.{name_of, set_of};
ghost use Rattle.rules.specs.Activity.{last_activity};
ghost use Rattle.rules.specs.Walk.{narrow};
ghost use Rattle.meaning.specs.Standing.{env_of, mark_of};
ghost use Rattle.proposal.specs.Turn.{hot_at, cold_at, shielded_at, passed_at, largest_at, top_at, stops_at, best_at, weigh_of, weighed, Fine, next_queued};
ghost use Rattle.proposal.specs.Propose.{choosing, dying, from_rank, answer, ended, Sane, Numbered, proposal_answer, proposal_left};

use crate::Proposal;
use clauses::records;
use examine::{examination, lists};
use requirement::candidates;
use rules::{Best, Finding, Out, selection};
use store::{areas, codes, limits, wide};

// What a clause does to the best so far: the walk goes on with a best and a number of drops, or ends at its best or at a dead clause.
#[derive(Clone, Copy, PartialEq, Eq)]
pub enum Weighed {
    On(Best, u32),
    Enough,
    Dead,
}

// The walk's answer, and the number of clauses that it dropped.
#[derive(Clone, Copy, PartialEq, Eq)]
pub struct Walked {
    pub out: Out,
    pub drops: u32,
}

// Whether a list's name is hot.
#[tactic(auto, using(crate::proofs::Steps::name_below))]
fn is_hot_list(s: &[u32], slot: usize) -> bool
    requires sound { Sound s.now }
    requires known { slot < lists }
    ensures { result ≡ (env_of s.now).hot (name_of s.now (set_of s.now slot)) }
{
    areas::HOT_NAMES.at(s, wide(candidates::name_at(s, slot))) == 1
}

// Whether a clause is hot: one of its requirement's lists is.
fn is_hot(s: &[u32], k: usize) -> bool
    requires sound { Sound s.now }
    requires known { k < at clause_count 0 s.now }
    ensures { result ≡ hot_at s.now k }
{
    let key = wide(areas::CLAUSE_REQUIREMENTS.at(s, k));
    lists::slots_of(s, key).any(|slot| is_hot_list(s, slot))
}

// Whether the walk keeps to hot clauses and stops at the largest activity.
fn is_narrow(s: &[u32]) -> bool
    requires { words ≤ length s.now }
    ensures { result ≡ narrow (env_of s.now) }
{
    areas::MODE.at(s, 0) == codes::STANDARD
}

// Whether the walk keeps to hot clauses and a clause is cold.
#[tactic(auto, unfolding(crate::specs::Turn::cold_at, crate::specs::Turn::hot_at))]
fn is_cold(s: &[u32], k: usize) -> bool
    requires sound { Sound s.now }
    requires known { k < at clause_count 0 s.now }
    ensures { result ≡ cold_at s.now k }
{
    is_narrow(s) && !is_hot(s, k)
}

// Whether the best's parent is the root and a clause's parent is not.
#[tactic(auto, unfolding(crate::specs::Turn::shielded_at, meaning::specs::Standing::of_clause))]
fn is_shielded(s: &[u32], b: Best, k: usize) -> bool
    requires sound { Sound s.now }
    requires known { k < at clause_count 0 s.now }
    requires best_known { b.clause < at clause_count 0 s.now }
    ensures { result ≡ shielded_at s.now b k }
{
    let above = areas::CLAUSE_PARENTS.at(s, wide(b.clause));
    let parent = areas::CLAUSE_PARENTS.at(s, k);
    selection::is_shielded(above, parent)
}

// Whether a clause is passed over after a best.
#[tactic(auto, unfolding(crate::specs::Turn::passed_at, crate::specs::Turn::cold_at, crate::specs::Turn::shielded_at))]
fn passed_over(s: &[u32], b: Best, k: usize) -> bool
    requires sound { Sound s.now }
    requires known { k < at clause_count 0 s.now }
    requires best_known { b.clause < at clause_count 0 s.now }
    ensures { result ≡ passed_at s.now b k }
{
    is_shielded(s, b, k) || is_cold(s, k)
}

// The largest activity, by its bits, whose order is the floats'.
#[tactic(auto, using(crate::proofs::Steps::largest_of))]
fn largest(s: &[u32]) -> u32
    requires { Sound s.now }
    ensures { result ≡ largest_at s.now names }
{
    let mut top: u32 = 0;
    for a in areas::ACTIVITIES.words(s) {
        top = top.max(*a);
    }
    top
}

// The largest activity, which only a narrow walk asks for.
#[tactic(auto, unfolding(crate::specs::Turn::top_at, crate::specs::Turn::largest_at))]
fn top(s: &[u32]) -> u32
    requires { Sound s.now }
    ensures { result ≡ top_at s.now }
{
    if is_narrow(s) { largest(s) } else { 0 }
}

// Whether the walk stops at a best, where `highest` is the largest activity.
#[tactic(auto, using(crate::proofs::Steps::top_good), unfolding(crate::specs::Turn::stops_at, crate::specs::Turn::top_at, crate::specs::Turn::largest_at))]
fn stops(s: &[u32], b: Best, highest: u32) -> bool
    requires sound { Sound s.now }
    requires good { b.activity ≤ last_activity }
    requires the_highest { highest ≡ top_at s.now }
    ensures { result ≡ stops_at s.now b }
{
    selection::stops(b, is_narrow(s), highest)
}

// The bits of a name's activity.
#[tactic(auto, using(crate::proofs::Steps::past))]
fn activity_of(s: &[u32], name: u32) -> u32
    requires { words ≤ length s.now }
    ensures { result ≡ at activities name s.now }
{
    if name < limits::NAMES as u32 {
        areas::ACTIVITIES.at(s, wide(name))
    } else {
        0
    }
}

// A clause as a best.
#[tactic(auto, unfolding(crate::specs::Turn::best_at))]
fn best_of(s: &[u32], k: u32, candidate: u32, name: u32, count: u32) -> Best
    requires { words ≤ length s.now }
    ensures { result ≡ best_at s.now k candidate name count }
{
    Best {
        clause: k,
        candidate,
        activity: activity_of(s, name),
        count,
    }
}

// One queued clause after the first best, where `highest` is the largest activity, which the walk asks for once. A struct
// of the two could not say so: the walk writes the words that `highest` is of.
#[tactic(auto, unfolding(crate::specs::Turn::weigh_of, crate::specs::Turn::weighed, crate::specs::Turn::best_at))]
fn weigh(s: &mut [u32], b: Best, highest: u32, rank: u32) -> Weighed
    requires sound { Sound s.old }
    requires known { rank < at clause_count 0 s.old }
    requires fine { Fine s.old b }
    requires the_highest { highest ≡ top_at s.old }
    ensures weighs { result ≡ weigh_of s.old b rank }
    ensures left { s.new ≡ weighed s.old b rank }
{
    if stops(s, b, highest) {
        return Weighed::Enough;
    }
    let k = wide(rank);
    if passed_over(s, b, k) {
        return Weighed::On(b, 0);
    }
    match examination::examine_queued(s, k) {
        Finding::Shut => Weighed::On(b, 1),
        Finding::Open {
            candidate,
            name,
            count,
        } => {
            let d = best_of(s, rank, candidate, name, count);
            Weighed::On(selection::better_of(b, d), 0)
        }
        Finding::Dead => Weighed::Dead,
    }
}

// The walk's answer at its best.
fn chosen(b: Best, drops: u32) -> Walked
    ensures { result ≡ choosing b drops }
{
    Walked {
        out: Out::Choose(b),
        drops,
    }
}

// The walk's answer at a dead clause.
fn died(s: &[u32], k: u32, drops: u32) -> Walked
    requires long { words ≤ length s.now }
    requires known { k < clauses }
    ensures { result ≡ dying (at clause_ids k s.now) drops }
{
    Walked {
        out: Out::Dead(areas::CLAUSE_IDS.at(s, wide(k))),
        drops,
    }
}

// The first clause from k on that is queued, or n, as the definition has it: the loops that ask it run up to n.
#[tactic(auto, using(rules::proofs::Loops::from_hit, rules::proofs::Loops::from_on, meaning::proofs::Clauses::mark_set, meaning::proofs::Clauses::mark_clear))]
fn next_queued(s: &[u32], k: u32, n: u32) -> u32
    requires sound { Sound s.now }
    requires upto { k ≤ n }
    requires the_count { n ≡ at clause_count 0 s.now }
    ensures { result ≡ next_queued s.now k (n - k) }
{
    for i in k..n {
        if areas::QUEUED.at(s, wide(i)) == 1 {
            return i;
        }
    }
    n
}

// The walk from its first best on.
fn walk_on(s: &mut [u32], from: u32, first: Best, drops: u32) -> Walked
    requires sound { Sound s.old }
    requires upto { from ≤ at clause_count 0 s.old }
    requires fine { Fine s.old first }
    requires few { drops ≤ from }
    ensures walks { ended result s.new ≡ from_rank s.old (choosing first drops) from s.old }
    ensures sane { Sane s.old result.out }
{
    if first.count == 1 {
        return chosen(first, drops);
    }
    let n = areas::CLAUSE_COUNT.at(s, 0);
    let highest = top(s);
    let mut k = next_queued(s, from, n);
    let mut b = first;
    let mut d = drops;
    // No counter: the walk goes on at the next queued clause, wherever that is.
    while k < n {
        match weigh(s, b, highest, k) {
            Weighed::On(c, y) => {
                b = c;
                d += y;
            }
            Weighed::Enough => return chosen(b, d),
            Weighed::Dead => return died(s, k, d),
        }
        k = next_queued(s, k + 1, n);
    }
    chosen(b, d)
}

// The walk: the first best is the open clause of lowest position.
fn walk(s: &mut [u32]) -> Walked
    requires { Sound s.old }
    ensures walks { ended result s.new ≡ answer s.old }
    ensures sane { Sane s.old result.out }
{
    let n = areas::CLAUSE_COUNT.at(s, 0);
    let mut k = next_queued(s, 0, n);
    let mut d: u32 = 0;
    // No counter: the walk goes on at the next queued clause, wherever that is.
    while k < n {
        match examination::examine_queued(s, wide(k)) {
            Finding::Shut => d += 1,
            Finding::Open {
                candidate,
                name,
                count,
            } => {
                let b = best_of(s, k, candidate, name, count);
                return walk_on(s, k + 1, b, d);
            }
            Finding::Dead => return died(s, k, d),
        }
        k = next_queued(s, k + 1, n);
    }
    Walked {
        out: Out::Nothing,
        drops: d,
    }
}

// The proposal of a synced store of sound shape.
pub fn propose(s: &mut [u32]) -> Proposal
    requires { Sound s.old }
    ensures answer { result ≡ proposal_answer s.old }
    ensures left { s.new ≡ proposal_left s.old }
    ensures numbered { Numbered result }
{
    let walked = walk(s);
    let dropped = walked.drops;
    match walked.out {
        Out::Nothing => Proposal::Nothing { dropped },
        Out::Dead(clause) => Proposal::Dead { clause, dropped },
        Out::Choose(b) => {
            let clause = records::clause_at(s, wide(b.clause));
            Proposal::Choose {
                candidate: b.candidate,
                parent: clause.parent,
                clause: clause.id,
                activity: f32::from_bits(b.activity),
                count: b.count,
                dropped,
            }
        }
    }
}
