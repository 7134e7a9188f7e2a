// Whether a disjunct holds on a store of sound shape. The crate's public calls test the shape and then call this.
ghost use Rattle.std.specs.Prelude.{◌≡◌, ◌+◌, ◌≤◌, ◌<◌, true, length, slice_index};
ghost use Rattle.store.specs.Limits.{last_variable};
ghost use Rattle.rules.specs.Numbers.{all_from};
ghost use Rattle.store.specs.Shape.{Sound, every, up_to};
ghost use Rattle.conditions.specs.Truth.{some};
ghost use Rattle.conditions.specs.Disjunct.{sane, sane_at, sane_all, holds_at, disjunct_row};
ghost use Rattle.trail.specs.Assignment.{assigned_true};
ghost use Rattle.store.specs.Row.{answer_sound};

use store::{Refusal, lent, limits, wide};
use trail::assignment;

// Kinds stay numbers: C lends them as a list, and nothing but that they are known is asked of them.
// The largest kind of a conjunct: 0 solvables (some candidates of a name match), 1 empty (all match: the complement is empty).
const LAST_KIND: u32 = 1;

// Whether a candidate of the list is assigned true.
#[tactic(auto, using(crate::proofs::Candidates::seeking))]
fn some_true(s: &[u32], list: &[u32]) -> bool
    requires sound { Sound s.now }
    requires list_value { every (up_to last_variable) list.now ≡ true }
    ensures { result ≡ some (assigned_true s.now) list.now }
{
    for v in list {
        if assignment::is_true(s, *v) {
            return true;
        }
    }
    false
}

// Whether a conjunct's kind, range and cells are known ones.
#[tactic(auto, unfolding(crate::specs::Disjunct::sane))]
fn is_sane_conjunct(cells: &[u32], kind: u32, start: u32, n: u32) -> bool
    ensures { result ≡ sane cells.now kind start n }
{
    if LAST_KIND < kind {
        return false;
    }
    let from = wide(start);
    let to = from + wide(n);
    to <= cells.len() && lent::all_upto(&cells[from..to], limits::LAST_VARIABLE as u32)
}

// The conjuncts as a caller lends them: the kind of each, and where its range of the cells begins and how long it is.
#[derive(Clone, Copy)]
pub struct Disjunct<'a> {
    pub kinds: &'a [u32],
    pub starts: &'a [u32],
    pub lengths: &'a [u32],
    pub cells: &'a [u32],
}

impl<'a> Disjunct<'a> {
    // Whether the three lists are of one length and every conjunct is sane. A loop over places: C lends three lists, and
    // what a `zip` of three yields isn't tied to a place, of which `sane_at` speaks (of two, as in `all_hold`, it is).
    #[tactic(auto, using(rules::proofs::Loops::testing_all), unfolding(crate::specs::Disjunct::sane_all, crate::specs::Disjunct::sane_at))]
    fn are_sane(&self) -> bool
        ensures { result ≡ sane_all self.now.kinds.now self.now.starts.now self.now.lengths.now self.now.cells.now }
    {
        if self.starts.len() != self.kinds.len() || self.lengths.len() != self.kinds.len() {
            return false;
        }
        for j in 0..self.kinds.len() {
            if !is_sane_conjunct(self.cells, self.kinds[j], self.starts[j], self.lengths[j]) {
                return false;
            }
        }
        true
    }

    // Whether each of the conjuncts, which are sane, has a candidate assigned true.
    #[tactic(auto, using(rules::proofs::Loops::testing_all), unfolding(crate::specs::Disjunct::holds_at))]
    fn all_hold(&self, s: &[u32]) -> bool
        requires sound { Sound s.now }
        requires sane { sane_all self.now.kinds.now self.now.starts.now self.now.lengths.now self.now.cells.now ≡ true }
        ensures { result ≡ all_from (holds_at s.now self.now.starts.now self.now.lengths.now self.now.cells.now) 0 (length self.now.kinds.now) }
    {
        for (start, n) in self.starts.iter().zip(self.lengths) {
            let from = wide(*start);
            let to = from + wide(*n);
            if !some_true(s, &self.cells[from..to]) {
                return false;
            }
        }
        true
    }

    #[tactic(auto, unfolding(crate::specs::Disjunct::disjunct_tests))]
    pub fn holds(&self, s: &[u32]) -> Result<bool, Refusal>
        requires { Sound s.now }
        ensures { result ≡ answer_sound (disjunct_row s.now self.now.kinds.now self.now.starts.now self.now.lengths.now self.now.cells.now) }
    {
        if !self.are_sane() {
            return Err(Refusal::BadId);
        }
        Ok(self.all_hold(s))
    }
}
