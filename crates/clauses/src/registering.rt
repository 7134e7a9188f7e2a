// Registering a clause in a store of sound shape. The crate's public calls test the shape and then call these. `key < requirements` is the range
// of an index that is read from a word or made from a tabled requirement: a type of its own would need a constructor, with a proof, at each read.
ghost use Rattle.std.specs.Prelude.{true, ◌≡◌, ◌+◌, ◌≤◌, ◌<◌, length};
ghost use Rattle.requirement.specs.Copy.{tabled};
ghost use Rattle.requirement.specs.Part.{Named};
ghost use Rattle.requirement.specs.Tables.{id_of, key_of, kind_of};
ghost use Rattle.store.specs.Layout.{words};
ghost use Rattle.store.specs.Limits.{clauses, variables, requirements, lists};
ghost use Rattle.store.specs.Row.{answer_sound, left_sound};
ghost use Rattle.store.specs.Shape.{Sound};
ghost use Rattle.clauses.specs.Names.{new_name, new_names, distinct_names};
ghost use Rattle.clauses.specs.Register.{known_condition, condition_word, literal_count_of, all_named, has_room, queued_mark, record_in, Placed, registered, register_row};

use crate::{Clause, records};
use requirement::{Requirement, candidates};
use store::{Refusal, areas, codes, limits, wide};
use tables::disjunction;
use trail::assignment;

// A clause as a call names it: its condition is a disjunction, or `NO_CONDITION`. No option, since `known_condition` and the row speak of the
// number that C gives.
#[derive(Clone, Copy, PartialEq, Eq)]
struct Registration {
    parent: u32,
    requirement: Requirement,
    condition: u32,
    id: u32,
}

// Whether no list before list i of those that begin at `first` has its name.
fn new_name(s: &[u32], first: usize, i: usize) -> bool
    requires sound { Sound s.now }
    requires inside { first + i < lists }
    ensures { result ≡ new_name s.now first i }
{
    let name = candidates::name_at(s, first + i);
    (0..i).all(|j| candidates::name_at(s, first + j) != name)
}

// How many distinct names the first n lists have.
fn new_names(s: &[u32], first: usize, n: usize) -> usize
    requires sound { Sound s.now }
    requires inside { first + n ≤ lists }
    ensures { result ≡ new_names s.now first n }
{
    (0..n).filter(|i| new_name(s, first, *i)).count()
}

// How many distinct names the version sets of a requirement have.
#[tactic(auto, using(crate::proofs::Naming::by_slots), unfolding(crate::specs::Names::distinct_names))]
fn names_of(s: &[u32], key: usize) -> usize
    requires sound { Sound s.now }
    requires known { key < requirements }
    ensures { result ≡ distinct_names s.now key }
{
    let first = candidates::first_slot(key);
    let n = candidates::set_count(s, key);
    new_names(s, first, n)
}

// Whether a condition is none or a loaded disjunction.
#[tactic(auto, unfolding(crate::specs::Register::known_condition))]
fn is_known(s: &[u32], condition: u32) -> bool
    requires { words ≤ length s.now }
    ensures { result ≡ known_condition s.now condition }
{
    condition == codes::NO_CONDITION || tables::is_loaded(s, areas::DISJUNCTION_SIZES, condition)
}

// A condition as it is stored.
#[tactic(auto, unfolding(crate::specs::Register::condition_word))]
fn condition_word(condition: u32) -> u32
    ensures { result ≡ condition_word condition }
{
    if condition == codes::NO_CONDITION {
        return 0;
    }
    condition + 1
}

// How many literals a condition has.
#[tactic(auto, using(crate::proofs::Registers::known_small), unfolding(crate::specs::Register::literal_count_of))]
fn literals_in(s: &[u32], condition: u32) -> usize
    requires long { words ≤ length s.now }
    requires known { known_condition s.now condition ≡ true }
    ensures { result ≡ literal_count_of s.now condition }
{
    if condition == codes::NO_CONDITION {
        return 0;
    }
    let literals = disjunction::literals_of(s, condition);
    wide(literals.count)
}

// Whether everything that a clause names is there, once its table is.
#[tactic(auto, unfolding(crate::specs::Register::all_named))]
fn is_named(s: &[u32], r: Registration) -> bool
    requires long { words ≤ length s.now }
    requires tabled { tabled s.now (kind_of r.requirement) (id_of r.requirement) ≡ true }
    ensures { result ≡ all_named s.now r.parent (kind_of r.requirement) (id_of r.requirement) r.condition }
{
    r.parent < limits::VARIABLES as u32 && is_known(s, r.condition)
}

// Whether one more clause fits, with its literals and its names.
#[tactic(auto, using(crate::proofs::Registers::by_room), unfolding(crate::specs::Register::has_room))]
fn has_room(s: &[u32], key: usize, condition: u32) -> bool
    requires sound { Sound s.now }
    requires key { key < requirements }
    requires known { known_condition s.now condition ≡ true }
    ensures { result ≡ has_room s.now key condition }
{
    wide(areas::CLAUSE_COUNT.at(s, 0)) < limits::CLAUSES
        && wide(areas::CONDITION_TOTAL.at(s, 0)) + literals_in(s, condition)
            <= limits::CONDITION_ROOM
        && wide(areas::NAME_TOTAL.at(s, 0)) + names_of(s, key) <= limits::NAME_ROOM
}

// What registering would answer.
#[tactic(auto, using(crate::proofs::Registers::by_tests), unfolding(crate::specs::Register::register_tests))]
fn register_case(s: &[u32], r: Registration) -> Result<(), Refusal>
    requires sound { Sound s.now }
    requires tabled { tabled s.now (kind_of r.requirement) (id_of r.requirement) ≡ true }
    ensures { result ≡ answer_sound (register_row s.now r.parent (kind_of r.requirement) (id_of r.requirement) r.condition r.id) }
{
    if !is_named(s, r) {
        return Err(Refusal::BadId);
    }
    if !has_room(s, r.requirement.key(), r.condition) {
        return Err(Refusal::NoRoom);
    }
    Ok(())
}

// The mark of a new clause: it is queued exactly if its parent is true now.
#[tactic(auto, unfolding(crate::specs::Register::queued_mark))]
fn mark_of(s: &[u32], parent: u32) -> u32
    requires sound { Sound s.now }
    requires known { parent < variables }
    ensures { result ≡ queued_mark s.now parent }
{
    u32::from(assignment::is_true(s, parent))
}

// Puts a record in at its rank, in each area of the records: a requirement is stored as its key.
#[tactic(auto, unfolding(crate::specs::Register::record_in))]
fn put_record(s: &mut [u32], rank: usize, count: usize, clause: Clause)
    requires long { words ≤ length s.old }
    requires place { rank ≤ count }
    requires room { count < clauses }
    requires key { key_of clause.requirement < requirements }
    ensures { s.new ≡ record_in rank count clause s.old }
{
    let key = clause.requirement.key() as u32;
    areas::CLAUSE_PARENTS.insert(s, rank, count, clause.parent);
    areas::CLAUSE_REQUIREMENTS.insert(s, rank, count, key);
    areas::CLAUSE_CONDITIONS.insert(s, rank, count, clause.condition);
    areas::CLAUSE_IDS.insert(s, rank, count, clause.id);
}

// The work of registering, once nothing refuses it.
#[tactic(auto, using(crate::proofs::Registers::by_putting), unfolding(crate::specs::Register::registered))]
fn put_in(s: &mut [u32], r: Registration)
    requires sound { Sound s.old }
    requires named { Named r.requirement }
    requires placed { Placed s.old r.parent (key_of r.requirement) r.condition }
    ensures { s.new ≡ registered s.old r.parent (key_of r.requirement) r.condition r.id }
{
    let count = wide(areas::CLAUSE_COUNT.at(s, 0));
    let rank = records::rank_of(s, r.parent, count);
    let mark = mark_of(s, r.parent);
    let literals = wide(areas::CONDITION_TOTAL.at(s, 0)) + literals_in(s, r.condition);
    let names = wide(areas::NAME_TOTAL.at(s, 0)) + names_of(s, r.requirement.key());
    let clause = Clause {
        parent: r.parent,
        requirement: r.requirement,
        condition: condition_word(r.condition),
        id: r.id,
    };
    put_record(s, rank, count, clause);
    areas::QUEUED.insert(s, rank, count, mark);
    areas::CLAUSE_COUNT.put(s, 0, count as u32 + 1);
    areas::CONDITION_TOTAL.put(s, 0, literals as u32);
    areas::NAME_TOTAL.put(s, 0, names as u32);
}

// Registers a clause whose table is loaded, unless something refuses it.
#[tactic(auto, using(crate::proofs::Registers::by_entering))]
fn enter(s: &mut [u32], r: Registration) -> Result<(), Refusal>
    requires sound { Sound s.old }
    requires tabled { tabled s.old (kind_of r.requirement) (id_of r.requirement) ≡ true }
    ensures answer { result ≡ answer_sound (register_row s.old r.parent (kind_of r.requirement) (id_of r.requirement) r.condition r.id) }
    ensures left { s.new ≡ left_sound s.old (register_row s.old r.parent (kind_of r.requirement) (id_of r.requirement) r.condition r.id) }
{
    register_case(s, r)?;
    put_in(s, r);
    Ok(())
}

#[tactic(auto, using(crate::proofs::Registers::by_looking))]
pub fn register(
    s: &mut [u32],
    parent: u32,
    kind: u32,
    requirement: u32,
    condition: u32,
    clause: u32,
) -> Result<(), Refusal>
    requires { Sound s.old }
    ensures answer { result ≡ answer_sound (register_row s.old parent kind requirement condition clause) }
    ensures left { s.new ≡ left_sound s.old (register_row s.old parent kind requirement condition clause) }
{
    let requirement = candidates::tabled(s, kind, requirement)?;
    let r = Registration {
        parent,
        requirement,
        condition,
        id: clause,
    };
    enter(s, r)
}
