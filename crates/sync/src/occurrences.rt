// Whether a touched variable occurs among the candidates of a requirement or the literals of a condition.
ghost use Rattle.std.specs.Prelude.{◌≡◌, ◌+◌, ◌≤◌, ◌<◌};
ghost use Rattle.store.specs.Limits.{requirements, lists, disjunctions, literal_room};
ghost use Rattle.store.specs.Shape.{Sound};
ghost use Rattle.requirement.specs.Tables.{cells_of};
ghost use Rattle.rules.specs.Sync.{meets, mentions};
ghost use Rattle.rules.specs.Walk.{flattened};
ghost use Rattle.meaning.specs.View.{lists_at, literal_at, literals_at};
ghost use Rattle.rules.specs.Numbers.{from};

use crate::table::Touched;
use examine::lists;
use store::{areas, wide};
use tables::disjunction;

// Whether a candidate of a list is touched.
fn in_list(s: &[u32], touched: &Touched, slot: usize) -> bool
    requires sound { Sound s.now }
    requires known { slot < lists }
    ensures { result ≡ meets touched.now (cells_of s.now slot) }
{
    let cells = lists::candidates_of(s, slot);
    cells.iter().any(|x| touched.has(*x))
}

// Whether a candidate of a requirement is.
pub fn in_requirement(s: &[u32], touched: &Touched, key: usize) -> bool
    requires sound { Sound s.now }
    requires known { key < requirements }
    ensures { result ≡ meets touched.now (flattened (lists_at s.now key)) }
{
    lists::slots_of(s, key).any(|slot| in_list(s, touched, slot))
}

// Whether the variable of one of n literals is.
fn in_literals(s: &[u32], touched: &Touched, start: usize, n: usize) -> bool
    requires sound { Sound s.now }
    requires inside { start + n ≤ literal_room }
    ensures { result ≡ mentions touched.now (from (literal_at s.now) start n) }
{
    (start..start + n).any(|i| touched.has(areas::LITERAL_VARIABLES.at(s, i)))
}

// Whether a variable of a condition is, as a clause stores it. Where there is none, the test for it is less than a loop over no literals.
#[tactic(auto, using(examine::proofs::Literals::literals), unfolding(meaning::specs::View::literals_at, rules::specs::Sync::mentions))]
pub fn in_condition(s: &[u32], touched: &Touched, condition: u32) -> bool
    requires sound { Sound s.now }
    requires known { condition ≤ disjunctions }
    ensures { result ≡ mentions touched.now (literals_at s.now condition) }
{
    if condition == 0 {
        return false;
    }
    let literals = disjunction::literals_under(s, condition);
    in_literals(s, touched, wide(literals.start), wide(literals.count))
}
