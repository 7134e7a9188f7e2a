// Conditions: rewriting a condition's tree to its terms, and whether a disjunct holds. Each public call tests the store's shape first.

#![tactic(auto)]

ghost use Rattle.std.specs.Prelude.{◌≡◌, length};
ghost use Rattle.conditions.specs.Rewrite.{rewrite_lengths, rewrite_cells, rewrite_row};
ghost use Rattle.conditions.specs.Disjunct.{disjunct_row};
ghost use Rattle.store.specs.Row.{answer_any};

use crate::disjunct::Disjunct;
use store::{Refusal, shape};

pub mod disjunct;
pub mod dnf;
mod tree;

pub use dnf::{Term, Way};

// What a condition is rewritten to: how many terms, and how many version sets they have together.
#[derive(Clone, Copy, PartialEq, Eq)]
pub struct Rewritten {
    pub terms: u32,
    pub cells: u32,
}

// Rewrites the condition of a node: the lengths of its terms, and the terms one after the other.
#[tactic(auto, unfolding(crate::specs::Rewrite::rewrite_sound_lengths, crate::specs::Rewrite::rewrite_sound_cells))]
pub fn rewrite(
    s: &[u32],
    node: u32,
    lengths: &mut [u32],
    cells: &mut [u32],
) -> Result<Rewritten, Refusal>
    ensures answer { result ≡ answer_any s.now (rewrite_row s.now node (length lengths.old) (length cells.old)) }
    ensures lengths_left { lengths.new ≡ rewrite_lengths s.now node lengths.old cells.old }
    ensures cells_left { cells.new ≡ rewrite_cells s.now node lengths.old cells.old }
{
    shape::check(s)?;
    dnf::rewrite(s, node, lengths, cells)
}

// Whether each conjunct, a kind over a range of the cells, has a candidate assigned true.
pub fn disjunct_holds(
    s: &[u32],
    kinds: &[u32],
    starts: &[u32],
    lengths: &[u32],
    cells: &[u32],
) -> Result<bool, Refusal>
    ensures { result ≡ answer_any s.now (disjunct_row s.now kinds.now starts.now lengths.now cells.now) }
{
    shape::check(s)?;
    let disjunct = Disjunct {
        kinds,
        starts,
        lengths,
        cells,
    };
    disjunct.holds(s)
}
