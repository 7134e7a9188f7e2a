// The table of touched variables.
ghost use Rattle.std.specs.Prelude.{false, ◌≡◌, ◌||◌, ◌<◌, ℕ, eqb};
ghost use Rattle.store.specs.Limits.{variables};
ghost use Rattle.store.specs.Shape.{Sound};
ghost use Rattle.rules.specs.Walk.{member};
ghost use Rattle.sync.specs.Sync.{touched_in};

use std::marker::Model;
use store::{areas, limits, wide};
use trail::entries;

// A place for each variable.
pub const PLACES: usize = limits::VARIABLES;

// The touched variables, as a set: place v is true where v is one. Nothing is allocated.
#[derive(Drop)]
pub struct Touched {
    places: [bool; PLACES],
}

impl Model for Touched {
    ghost use Rattle.std.specs.Prelude.{List, ℕ};
    ghost use Rattle.sync.specs.Table.{in_table};

    ghost Value = { List ℕ };

    ghost view = { λ t. in_table t.places };
}

impl Touched {
    // No variable.
    #[tactic(auto, using(crate::proofs::Touched::empty_tells))]
    pub fn none() -> Self
        ensures { (v : ℕ) → member v result ≡ false }
    {
        Touched {
            places: [false; PLACES],
        }
    }

    // Whether a variable is touched.
    #[tactic(auto, using(crate::proofs::Touched::found_is))]
    pub fn has(&self, variable: u32) -> bool
        requires { variable < variables }
        ensures { result ≡ member variable self.now }
    {
        self.places[wide(variable)]
    }

    // Enters a variable, so that a caller can make any set.
    #[tactic(auto, using(crate::proofs::Touched::entered_tells))]
    pub fn enter(&mut self, v: u32)
        requires { v < variables }
        ensures { (x : ℕ) → member x self.new ≡ member x self.old || eqb x v }
    {
        self.places[wide(v)] = true;
    }

    // Enters the variables of the mirror's entries and of the trail's at or beyond the floor. It fills a table that is there: one that
    // it returned would be copied.
    pub fn enter_touched(&mut self, s: &[u32])
        requires { Sound s.now }
        ensures { (v : ℕ) → member v self.new ≡ member v self.old || member v (touched_in s.now) }
    {
        let floor = wide(entries::floor(s));
        let mirrored = wide(areas::MIRROR_LENGTH.at(s, 0));
        let length = wide(entries::length(s));
        for k in floor..mirrored {
            self.enter(areas::MIRROR.at(s, k));
        }
        for i in floor..length {
            self.enter(entries::variable_at(s, i));
        }
    }
}
