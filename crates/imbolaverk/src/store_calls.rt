// A store: how many words it needs, and a fresh one.
ghost use Rattle.std.specs.Prelude.{◌≡◌};
ghost use Rattle.imbolaverk.specs.Calls.{number_of, left_by, fresh};
ghost use Rattle.store.specs.Layout.{words};

use crate::out;
use store::{areas, fresh};

// How many words a store needs.
pub fn imb_words() -> usize
    ensures { result ≡ words }
{
    areas::WORDS
}

// Makes a fresh store, whatever the words held.
pub fn imb_fresh(s: &mut [u32]) -> u32
    ensures number { result ≡ number_of s.old fresh }
    ensures left { s.new ≡ left_by s.old fresh }
{
    out::number(fresh::fresh(s))
}
