// Condition nodes in a store of sound shape. The crate's public calls test the shape and then call these.
ghost use Rattle.std.specs.Prelude.{◌≡◌, ◌≤◌, ◌<◌, length};
ghost use Rattle.store.specs.Codes.{called_leaf, called_or};
ghost use Rattle.store.specs.Layout.{words};
ghost use Rattle.store.specs.Row.{answer_sound, left_sound};
ghost use Rattle.store.specs.Shape.{Sound};
ghost use Rattle.tables.specs.Condition.{load_condition_row};

use crate::is_loaded;
use store::{Refusal, areas, codes, limits, wide};

// A leaf as a call gives it: the version set that it names.
#[derive(Clone, Copy, PartialEq, Eq)]
struct Leaf {
    number: u32,
    set: u32,
}

impl Leaf {
    // What loading it would answer.
    #[tactic(auto, unfolding(crate::specs::Condition::load_condition_tests))]
    fn load_case(self, s: &[u32]) -> Result<(), Refusal>
        requires { words ≤ length s.now }
        ensures { result ≡ answer_sound (load_condition_row s.now self.number called_leaf self.set 0) }
    {
        if limits::NODES as u32 <= self.number || !is_loaded(s, areas::SET_NAMES, self.set) {
            return Err(Refusal::BadId);
        }
        if is_loaded(s, areas::NODE_KINDS, self.number) {
            return Err(Refusal::LoadedTwice);
        }
        Ok(())
    }

    #[tactic(auto, unfolding(crate::specs::Condition::load_condition_tests, crate::specs::Condition::node_put, crate::specs::Condition::leafed))]
    fn load(self, s: &mut [u32]) -> Result<(), Refusal>
        requires { words ≤ length s.old }
        ensures answer { result ≡ answer_sound (load_condition_row s.old self.number called_leaf self.set 0) }
        ensures left { s.new ≡ left_sound s.old (load_condition_row s.old self.number called_leaf self.set 0) }
    {
        self.load_case(s)?;
        areas::NODE_KINDS.put(s, wide(self.number), codes::LEAF);
        areas::NODE_SETS.put(s, wide(self.number), self.set);
        Ok(())
    }
}

// An `and` (kind 1) or `or` (kind 2) of two nodes, as a call gives it. Its kind stays a number: what is stored is one more, and nothing else is asked
// of it.
#[derive(Clone, Copy, PartialEq, Eq)]
struct Branch {
    number: u32,
    kind: u32,
    left: u32,
    right: u32,
}

impl Branch {
    // What loading it would answer.
    #[tactic(auto, unfolding(crate::specs::Condition::load_condition_tests))]
    fn load_case(self, s: &[u32]) -> Result<(), Refusal>
        requires long { words ≤ length s.now }
        requires no_leaf { called_leaf < self.kind }
        requires known { self.kind ≤ called_or }
        ensures { result ≡ answer_sound (load_condition_row s.now self.number self.kind self.left self.right) }
    {
        if limits::NODES as u32 <= self.number
            || !is_loaded(s, areas::NODE_KINDS, self.left)
            || !is_loaded(s, areas::NODE_KINDS, self.right)
        {
            return Err(Refusal::BadId);
        }
        if self.number <= self.left || self.number <= self.right {
            return Err(Refusal::Malformed);
        }
        if is_loaded(s, areas::NODE_KINDS, self.number) {
            return Err(Refusal::LoadedTwice);
        }
        Ok(())
    }

    // Its kind and its children are stored as one more.
    #[tactic(auto, unfolding(crate::specs::Condition::load_condition_tests, crate::specs::Condition::node_put, crate::specs::Condition::branched))]
    fn load(self, s: &mut [u32]) -> Result<(), Refusal>
        requires long { words ≤ length s.old }
        requires no_leaf { called_leaf < self.kind }
        requires known { self.kind ≤ called_or }
        ensures answer { result ≡ answer_sound (load_condition_row s.old self.number self.kind self.left self.right) }
        ensures left { s.new ≡ left_sound s.old (load_condition_row s.old self.number self.kind self.left self.right) }
    {
        self.load_case(s)?;
        areas::NODE_KINDS.put(s, wide(self.number), self.kind + 1);
        areas::NODE_LEFTS.put(s, wide(self.number), self.left + 1);
        areas::NODE_RIGHTS.put(s, wide(self.number), self.right + 1);
        Ok(())
    }
}

// Kind 0 is a leaf of the version set `left`, 1 the `and` and 2 the `or` of two nodes.
#[tactic(auto, unfolding(crate::specs::Condition::load_condition_tests, crate::specs::Condition::node_put))]
pub fn load(s: &mut [u32], node: u32, kind: u32, left: u32, right: u32) -> Result<(), Refusal>
    requires { Sound s.old }
    ensures answer { result ≡ answer_sound (load_condition_row s.old node kind left right) }
    ensures left { s.new ≡ left_sound s.old (load_condition_row s.old node kind left right) }
{
    match kind {
        codes::CALLED_LEAF => {
            let leaf = Leaf {
                number: node,
                set: left,
            };
            leaf.load(s)
        }
        ..=codes::CALLED_OR => {
            let branch = Branch {
                number: node,
                kind,
                left,
                right,
            };
            branch.load(s)
        }
        _ => Err(Refusal::BadId),
    }
}
