// Disjunctions in a store of sound shape. The crate's public calls test the shape and then call these.
ghost use Rattle.std.specs.Prelude.{◌≡◌, ◌+◌, ◌≤◌, ◌<◌, length};
ghost use Rattle.store.specs.Area.{at};
ghost use Rattle.store.specs.Layout.{words, literal_count};
ghost use Rattle.store.specs.Limits.{disjunctions, literal_room};
ghost use Rattle.store.specs.Row.{answer_sound, left_sound};
ghost use Rattle.store.specs.Shape.{Sound};
ghost use Rattle.tables.specs.Disjunction.{literals_of, literals_under, literals_fit, literals_put, load_disjunction_row};

use crate::{Literals, is_loaded};
use store::{Refusal, areas, lent, limits, wide};

// The literals of a disjunction as a caller lends them: literal j is variables[j] with signs[j].
#[derive(Clone, Copy)]
struct Lent<'a> {
    variables: &'a [u32],
    signs: &'a [u32],
}

// The literals of a disjunction: none where it is not loaded.
#[tactic(auto, unfolding(crate::specs::Disjunction::literals_of))]
pub fn literals_of(s: &[u32], disjunction: u32) -> Literals
    requires long { words ≤ length s.now }
    requires known { disjunction < disjunctions }
    ensures { result ≡ literals_of s.now disjunction }
{
    let start = areas::DISJUNCTION_STARTS.at(s, wide(disjunction));
    let size = areas::DISJUNCTION_SIZES.at(s, wide(disjunction));
    Literals {
        start,
        count: size.saturating_sub(1),
    }
}

// The literals of a condition as a clause stores it: 0 is none, else one more than the disjunction. It is the stored word, whose range `Sound` gives.
#[tactic(auto, unfolding(crate::specs::Disjunction::literals_under))]
pub fn literals_under(s: &[u32], condition: u32) -> Literals
    requires long { words ≤ length s.now }
    requires known { condition ≤ disjunctions }
    ensures { result ≡ literals_under s.now condition }
{
    if condition == 0 {
        return Literals { start: 0, count: 0 };
    }
    literals_of(s, condition - 1)
}

// Whether each literal has a variable in range and a sign.
#[tactic(auto, unfolding(crate::specs::Disjunction::literals_fit))]
fn literals_fit(literals: Lent) -> bool
    ensures { result ≡ literals_fit literals.entry.variables.now literals.entry.signs.now }
{
    literals.variables.len() == literals.signs.len()
        && lent::all_upto(literals.variables, limits::LAST_VARIABLE as u32)
        && lent::all_upto(literals.signs, 1)
}

// What loading would answer.
#[tactic(auto, unfolding(crate::specs::Disjunction::load_disjunction_tests))]
fn load_case(s: &[u32], disjunction: u32, literals: Lent) -> Result<(), Refusal>
    requires { words ≤ length s.now }
    ensures { result ≡ answer_sound (load_disjunction_row s.now disjunction literals.entry.variables.now literals.entry.signs.now) }
{
    if limits::DISJUNCTIONS as u32 <= disjunction || !literals_fit(literals) {
        return Err(Refusal::BadId);
    }
    if is_loaded(s, areas::DISJUNCTION_SIZES, disjunction) {
        return Err(Refusal::LoadedTwice);
    }
    if limits::LITERAL_ROOM < wide(areas::LITERAL_COUNT.at(s, 0)) + literals.variables.len() {
        return Err(Refusal::NoRoom);
    }
    Ok(())
}

// Writes the literals behind those that are there.
#[tactic(auto, unfolding(crate::specs::Disjunction::literals_put))]
fn put_literals(s: &mut [u32], disjunction: u32, literals: Lent)
    requires long { words ≤ length s.old }
    requires known { disjunction < disjunctions }
    requires room { at literal_count 0 s.old + length literals.variables.now ≤ literal_room }
    requires paired { length literals.signs.now ≡ length literals.variables.now }
    ensures { s.new ≡ literals_put s.old disjunction literals.entry.variables.now literals.entry.signs.now }
{
    let start = areas::LITERAL_COUNT.at(s, 0);
    let n = literals.variables.len() as u32;
    areas::DISJUNCTION_STARTS.put(s, wide(disjunction), start);
    areas::DISJUNCTION_SIZES.put(s, wide(disjunction), n + 1);
    areas::LITERAL_COUNT.put(s, 0, start + n);
    areas::LITERAL_VARIABLES.put_run(s, wide(start), literals.variables);
    areas::LITERAL_SIGNS.put_run(s, wide(start), literals.signs);
}

#[tactic(auto, using(crate::proofs::DisjunctionLoading::literals_paired), unfolding(crate::specs::Disjunction::load_disjunction_tests))]
pub fn load(
    s: &mut [u32],
    disjunction: u32,
    variables: &[u32],
    signs: &[u32],
) -> Result<(), Refusal>
    requires { Sound s.old }
    ensures answer { result ≡ answer_sound (load_disjunction_row s.old disjunction variables.now signs.now) }
    ensures left { s.new ≡ left_sound s.old (load_disjunction_row s.old disjunction variables.now signs.now) }
{
    let literals = Lent { variables, signs };
    load_case(s, disjunction, literals)?;
    put_literals(s, disjunction, literals);
    Ok(())
}
