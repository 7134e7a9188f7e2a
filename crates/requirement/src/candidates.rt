// The calls on the candidate tables of a store of sound shape. The crate's public calls test the shape and then call these. A key and a
// slot are plain numbers, `key < requirements`, `slot < lists`: callers read them from words of the store, whose range `Sound` gives.
ghost use Rattle.std.specs.Prelude.{true, cond, Ok, Err, ◌≡◌, ◌+◌, ◌≤◌, ◌<◌, T, length};
ghost use Rattle.store.specs.Area.{at, put_run};
ghost use Rattle.store.specs.Layout.{words, list_starts, list_lengths};
ghost use Rattle.store.specs.Lent.{lengths_of, joined};
ghost use Rattle.store.specs.Limits.{version_sets, requirements, lists, cell_room};
ghost use Rattle.store.specs.Row.{answer_sound, left_sound};
ghost use Rattle.store.specs.Shape.{lies, Sound};
ghost use Rattle.requirement.specs.Copy.{tabled, copy_sound_lengths, copy_sound_cells, copy_row};
ghost use Rattle.requirement.specs.Load.{adds, total, known, fitting, Roomy, put_lists, table_at, loaded_single, loaded_union, loaded, load_row};
ghost use Rattle.requirement.specs.Part.{in_part, part_of, Named, single_area, union_area, area_from, area_to, place_of};
ghost use Rattle.requirement.specs.Tables.{requirement_of, kind_of, id_of, key_of, first_slot, set_count, set_of, name_of, list_count, lists_of, cells_of};
ghost use Rattle.rules.specs.Numbers.{from};
ghost use Rattle.store.specs.declared.refusals.Refusal.TheVariants.{BadId};

use crate::{Copied, Requirement};
use store::area::Area;
use store::{Refusal, areas, lent, limits, wide};

// The candidate lists of a requirement as a caller lends them: list j is the next lengths[j] cells.
#[derive(Clone, Copy)]
struct Table<'a> {
    lengths: &'a [u32],
    cells: &'a [u32],
}

// Whether lengths add up to exactly n: what remains of n is taken along, so nothing overflows.
#[tactic(auto, using(crate::proofs::Adding::by_adding))]
fn add_up(lengths: &[u32], n: usize) -> bool
    ensures { result ≡ adds lengths.now n }
{
    let mut rest = n;
    for length in lengths {
        let length = wide(*length);
        if rest < length {
            return false;
        }
        rest -= length;
    }
    rest == 0
}

// Whether the version set or the union of a requirement is loaded.
#[tactic(auto, unfolding(crate::specs::Load::known))]
fn is_known(s: &[u32], r: Requirement) -> bool
    requires long { words ≤ length s.now }
    requires named { Named r }
    ensures { result ≡ known s.now (kind_of r) (id_of r) }
{
    match r {
        Requirement::Single(set) => areas::SET_NAMES.at(s, wide(set)) != 0,
        Requirement::Union(union) => areas::UNION_SIZES.at(s, wide(union)) != 0,
    }
}

// Where the lists of a requirement begin.
#[tactic(auto, unfolding(crate::specs::Tables::first_slot))]
pub fn first_slot(key: usize) -> usize
    requires { key < requirements }
    ensures { result ≡ first_slot key }
{
    if key < limits::VERSION_SETS {
        return key;
    }
    limits::VERSION_SETS + limits::UNION_ROOM * (key - limits::VERSION_SETS)
}

// How many version sets it has.
#[tactic(auto, unfolding(crate::specs::Tables::set_count))]
pub fn set_count(s: &[u32], key: usize) -> usize
    requires long { words ≤ length s.now }
    requires known { key < requirements }
    ensures { result ≡ set_count s.now key }
{
    if key < limits::VERSION_SETS {
        return 1;
    }
    let stored = areas::UNION_SIZES.at(s, key - limits::VERSION_SETS);
    wide(stored.saturating_sub(1))
}

// The version set of a list.
#[tactic(auto, unfolding(crate::specs::Tables::set_of))]
fn set_at(s: &[u32], slot: usize) -> usize
    requires long { words ≤ length s.now }
    requires known { slot < lists }
    ensures { result ≡ set_of s.now slot }
{
    if slot < limits::VERSION_SETS {
        return slot;
    }
    wide(areas::UNION_SETS.at(s, slot - limits::VERSION_SETS))
}

// The name of a list's version set.
#[tactic(auto, using(crate::proofs::Views::set_below))]
pub fn name_at(s: &[u32], slot: usize) -> u32
    requires sound { Sound s.now }
    requires slot_lt_lists { slot < lists }
    ensures { result ≡ name_of s.now (set_of s.now slot) }
{
    let set = set_at(s, slot);
    areas::SET_NAMES.at(s, set).saturating_sub(1)
}

// Whether the requirement is loaded and the lent lists make a table of candidates.
#[tactic(auto, unfolding(crate::specs::Load::fitting))]
fn is_fitting(s: &[u32], r: Requirement, table: Table) -> bool
    requires long { words ≤ length s.now }
    requires named { Named r }
    ensures { result ≡ fitting s.now (kind_of r) (id_of r) table.entry.lengths.now table.entry.cells.now }
{
    is_known(s, r)
        && add_up(table.lengths, table.cells.len())
        && lent::all_upto(table.cells, limits::LAST_VARIABLE as u32)
}

// What loading would answer.
#[tactic(auto, using(crate::proofs::Decoding::key_back), unfolding(crate::specs::Load::load_tests))]
fn load_case(s: &[u32], r: Requirement, table: Table) -> Result<(), Refusal>
    requires long { words ≤ length s.now }
    requires named { Named r }
    ensures { result ≡ answer_sound (load_row s.now (kind_of r) (id_of r) table.entry.lengths.now table.entry.cells.now) }
{
    if !is_fitting(s, r, table) {
        return Err(Refusal::BadId);
    }
    let key = r.key();
    let count = set_count(s, key);
    if table.lengths.len() != count {
        return Err(Refusal::Malformed);
    }
    let mark = areas::TABLES_LOADED.at(s, key);
    if mark != 0 {
        return Err(Refusal::LoadedTwice);
    }
    let singles = areas::SINGLE_CELLS.at(s, 0);
    let unions = areas::UNION_CELLS.at(s, 0);
    if limits::CELL_ROOM < wide(singles) + wide(unions) + table.cells.len() {
        return Err(Refusal::NoRoom);
    }
    Ok(())
}

// Writes the starts and the lengths of lists that lie one after the other, from the list `slot` and the place `start` on.
#[tactic(auto, using(crate::proofs::Adding::by_turns))]
fn set_lists(s: &mut [u32], slot: usize, start: usize, lengths: &[u32])
    requires long { words ≤ length s.old }
    requires slots { slot + length lengths.now ≤ lists }
    requires places { start + total lengths.now ≤ cell_room }
    ensures { s.new ≡ put_lists slot start lengths.now s.old }
{
    let mut place = start;
    for (j, n) in lengths.iter().enumerate() {
        areas::LIST_STARTS.put(s, slot + j, place as u32);
        areas::LIST_LENGTHS.put(s, slot + j, *n);
        place += wide(*n);
    }
}

// Writes a table whose cells begin at `place`.
#[tactic(auto, unfolding(crate::specs::Load::table_at))]
fn set_table(s: &mut [u32], key: usize, place: usize, table: Table)
    requires roomy { Roomy s.old key table.lengths.now table.cells.now }
    requires places { place + length table.cells.now ≤ cell_room }
    ensures { s.new ≡ table_at key place table.entry.lengths.now table.entry.cells.now s.old }
{
    areas::CANDIDATES.put_run(s, place, table.cells);
    set_lists(s, first_slot(key), place, table.lengths);
    areas::TABLES_LOADED.put(s, key, 1);
}

// The table of a single: its cells come behind those of the singles before it. Those of a union grow from the other end, so the two are no twins.
#[tactic(auto, unfolding(crate::specs::Load::loaded_single))]
fn load_single(s: &mut [u32], set: u32, table: Table)
    requires { Roomy s.old set table.lengths.now table.cells.now }
    ensures { s.new ≡ loaded_single s.old set table.entry.lengths.now table.entry.cells.now }
{
    let used = areas::SINGLE_CELLS.at(s, 0);
    set_table(s, wide(set), wide(used), table);
    areas::SINGLE_CELLS.put(s, 0, used + table.cells.len() as u32);
}

// The table of a union: its cells come before those of the unions before it.
#[tactic(auto, unfolding(crate::specs::Load::loaded_union))]
fn load_union(s: &mut [u32], union: u32, table: Table)
    requires { Roomy s.old (version_sets + union) table.lengths.now table.cells.now }
    ensures { s.new ≡ loaded_union s.old union table.entry.lengths.now table.entry.cells.now }
{
    let used = areas::UNION_CELLS.at(s, 0);
    let place = limits::CELL_ROOM - wide(used) - table.cells.len();
    set_table(s, limits::VERSION_SETS + wide(union), place, table);
    areas::UNION_CELLS.put(s, 0, used + table.cells.len() as u32);
}

// The work of loading, once nothing refuses it.
#[tactic(auto, unfolding(crate::specs::Load::loaded))]
fn load(s: &mut [u32], r: Requirement, table: Table)
    requires { Roomy s.old (key_of r) table.lengths.now table.cells.now }
    ensures { s.new ≡ loaded s.old (kind_of r) (id_of r) table.entry.lengths.now table.entry.cells.now }
{
    match r {
        Requirement::Single(set) => load_single(s, set, table),
        Requirement::Union(union) => load_union(s, union, table),
    }
}

// Loads a table, unless something refuses it.
#[tactic(auto, using(crate::proofs::Loading::by_loading))]
fn load_table(s: &mut [u32], r: Requirement, table: Table) -> Result<(), Refusal>
    requires sound { Sound s.old }
    requires named { Named r }
    ensures answer { result ≡ answer_sound (load_row s.old (kind_of r) (id_of r) table.entry.lengths.now table.entry.cells.now) }
    ensures left { s.new ≡ left_sound s.old (load_row s.old (kind_of r) (id_of r) table.entry.lengths.now table.entry.cells.now) }
{
    load_case(s, r, table)?;
    load(s, r, table);
    Ok(())
}

#[tactic(auto, using(crate::proofs::Loading::by_decoding))]
pub fn load_candidates(
    s: &mut [u32],
    kind: u32,
    id: u32,
    lengths: &[u32],
    cells: &[u32],
) -> Result<(), Refusal>
    requires { Sound s.old }
    ensures answer { result ≡ answer_sound (load_row s.old kind id lengths.now cells.now) }
    ensures left { s.new ≡ left_sound s.old (load_row s.old kind id lengths.now cells.now) }
{
    let r = Requirement::of(kind, id)?;
    load_table(s, r, Table { lengths, cells })
}

// The candidate part of a requirement: a part of one of two lent areas, singles or unions.
pub fn candidate_part<'a>(
    r: Requirement,
    singles: &'a [u32],
    unions: &'a [u32],
    start: usize,
    len: usize,
) -> &'a [u32]
    requires { T (in_part r singles.now unions.now start len) }
    ensures { result.now ≡ part_of r singles.now unions.now start len }
{
    match r {
        Requirement::Single(_) => &singles[start..start + len],
        Requirement::Union(_) => &unions[start..start + len],
    }
}

// The cells of the singles, from below.
#[tactic(auto, unfolding(crate::specs::Part::single_area))]
fn singles_of<'a>(s: &'a [u32]) -> &'a [u32]
    requires { Sound s.now }
    ensures { result.now ≡ single_area s.now }
{
    let n = wide(areas::SINGLE_CELLS.at(s, 0));
    &areas::CANDIDATES.words(s)[..n]
}

// The cells of the unions, up to the last.
#[tactic(auto, unfolding(crate::specs::Part::union_area))]
fn unions_of<'a>(s: &'a [u32]) -> &'a [u32]
    requires { Sound s.now }
    ensures { result.now ≡ union_area s.now }
{
    let n = wide(areas::UNION_CELLS.at(s, 0));
    &areas::CANDIDATES.words(s)[limits::CELL_ROOM - n..]
}

// Where a list begins in the area of its requirement.
#[tactic(auto, unfolding(crate::specs::Part::place_of))]
fn place_of(s: &[u32], r: Requirement, slot: usize) -> usize
    requires sound { Sound s.now }
    requires known { slot < lists }
    requires lying { lies (area_from s.now r) (area_to s.now r) (at list_starts slot s.now) (at list_lengths slot s.now) ≡ true }
    ensures { result ≡ place_of s.now r slot }
{
    let length = areas::LIST_LENGTHS.at(s, slot);
    if length == 0 {
        return 0;
    }
    let start = wide(areas::LIST_STARTS.at(s, slot));
    match r {
        Requirement::Single(_) => start,
        Requirement::Union(_) => start - (limits::CELL_ROOM - wide(areas::UNION_CELLS.at(s, 0))),
    }
}

// List j of a requirement whose table is loaded: its cells, in the store.
#[tactic(auto, using(crate::proofs::Parts::by_listing))]
pub fn list_of<'a>(s: &'a [u32], r: Requirement, j: usize) -> &'a [u32]
    requires sound { Sound s.now }
    requires named { Named r }
    requires inside { j < list_count s.now (key_of r) }
    ensures { result.now ≡ cells_of s.now (first_slot (key_of r) + j) }
{
    let slot = first_slot(r.key()) + j;
    let place = place_of(s, r, slot);
    let len = wide(areas::LIST_LENGTHS.at(s, slot));
    candidate_part(r, singles_of(s), unions_of(s), place, len)
}

// Whether the table of a requirement is loaded.
#[tactic(auto, unfolding(crate::specs::Copy::tabled))]
fn is_tabled(s: &[u32], r: Requirement) -> bool
    requires long { words ≤ length s.now }
    requires named { Named r }
    ensures { result ≡ tabled s.now (kind_of r) (id_of r) }
{
    areas::TABLES_LOADED.at(s, r.key()) != 0
}

// The requirement that a kind and an id name, if its table is loaded.
#[tactic(auto, using(crate::proofs::Decoding::by_decoding))]
pub fn tabled(s: &[u32], kind: u32, id: u32) -> Result<Requirement, Refusal>
    requires { words ≤ length s.now }
    ensures { result ≡ cond (tabled s.now kind id) (Ok (requirement_of kind id)) (Err BadId) }
{
    let r = Requirement::of(kind, id)?;
    if !is_tabled(s, r) {
        return Err(Refusal::BadId);
    }
    Ok(r)
}

// How many lists a requirement has.
#[tactic(auto, unfolding(crate::specs::Tables::list_count))]
pub fn list_count(s: &[u32], key: usize) -> usize
    requires long { words ≤ length s.now }
    requires known { key < requirements }
    ensures { result ≡ list_count s.now key }
{
    if areas::TABLES_LOADED.at(s, key) == 0 {
        return 0;
    }
    set_count(s, key)
}

// The lists of a requirement whose table is loaded, in their store.
#[derive(Clone, Copy)]
struct Lists<'a> {
    s: &'a [u32],
    r: Requirement,
    ghost sound: { Sound s.now },
    ghost tabled: { tabled s.now (kind_of r) (id_of r) ≡ true },
}

impl<'a> Lists<'a> {
    // How many there are.
    #[tactic(auto, using(crate::proofs::Copying::tabled_back, crate::proofs::Parts::named_key))]
    fn count(self) -> usize
        ensures { result ≡ list_count self.entry.s.now (key_of self.entry.r) }
    {
        list_count(self.s, self.r.key())
    }

    // List j of them.
    #[tactic(auto, using(crate::proofs::Copying::tabled_back))]
    fn list(self, j: usize) -> &'a [u32]
        requires { j < list_count self.s.now (key_of self.r) }
        ensures { result.now ≡ cells_of self.entry.s.now (first_slot (key_of self.entry.r) + j) }
    {
        list_of(self.s, self.r, j)
    }

    // How many cells they have.
    #[tactic(auto, using(crate::proofs::Copying::by_sums))]
    fn cell_count(self) -> usize
        ensures { result ≡ length (joined (lists_of self.entry.s.now (key_of self.entry.r))) }
    {
        let mut sum: usize = 0;
        for j in 0..self.count() {
            let list = self.list(j);
            sum += list.len();
        }
        sum
    }

    // Copies their lengths, one after the other.
    #[tactic(auto, using(crate::proofs::Copying::by_lengths))]
    fn copy_lengths(self, lengths: &mut [u32])
        requires room { list_count self.s.now (key_of self.r) ≤ length lengths.old }
        ensures { lengths.new ≡ put_run (record { base = 0; size = length lengths.old }) 0 (lengths_of (lists_of self.entry.s.now (key_of self.entry.r))) lengths.old }
    {
        for j in 0..self.count() {
            let list = self.list(j);
            lengths[j] = list.len() as u32;
        }
    }

    // Copies their cells, one after the other.
    #[tactic(auto, using(crate::proofs::Copying::by_cells))]
    fn copy_cells(self, cells: &mut [u32])
        requires room { length (joined (lists_of self.s.now (key_of self.r))) ≤ length cells.old }
        ensures { cells.new ≡ put_run (record { base = 0; size = length cells.old }) 0 (joined (lists_of self.entry.s.now (key_of self.entry.r))) cells.old }
    {
        let whole = Area {
            base: 0,
            size: cells.len(),
        };
        let mut place: usize = 0;
        for j in 0..self.count() {
            let list = self.list(j);
            whole.put_run(cells, place, list);
            place += list.len();
        }
    }

    // What copying into lent lists of n and m places would answer.
    #[tactic(auto, using(crate::proofs::Copying::by_counting))]
    fn copy_case(self, n: usize, m: usize) -> Result<Copied, Refusal>
        ensures { result ≡ answer_sound (copy_row self.entry.s.now (kind_of self.entry.r) (id_of self.entry.r) n m) }
    {
        let count = self.count();
        if n < count {
            return Err(Refusal::NoRoom);
        }
        let sum = self.cell_count();
        if m < sum {
            return Err(Refusal::NoRoom);
        }
        Ok(Copied {
            lists: count as u32,
            cells: sum as u32,
        })
    }

    // Copies them, unless something refuses it.
    #[tactic(auto, using(crate::proofs::Copying::by_copying))]
    fn copy(self, lengths: &mut [u32], cells: &mut [u32]) -> Result<Copied, Refusal>
        ensures answer { result ≡ answer_sound (copy_row self.entry.s.now (kind_of self.entry.r) (id_of self.entry.r) (length lengths.old) (length cells.old)) }
        ensures lengths_left { lengths.new ≡ copy_sound_lengths self.entry.s.now (kind_of self.entry.r) (id_of self.entry.r) lengths.old cells.old }
        ensures cells_left { cells.new ≡ copy_sound_cells self.entry.s.now (kind_of self.entry.r) (id_of self.entry.r) lengths.old cells.old }
    {
        let copied = self.copy_case(lengths.len(), cells.len())?;
        self.copy_lengths(lengths);
        self.copy_cells(cells);
        Ok(copied)
    }
}

#[tactic(auto, using(crate::proofs::Copying::by_looking))]
pub fn copy_candidates(
    s: &[u32],
    kind: u32,
    id: u32,
    lengths: &mut [u32],
    cells: &mut [u32],
) -> Result<Copied, Refusal>
    requires { Sound s.now }
    ensures answer { result ≡ answer_sound (copy_row s.now kind id (length lengths.old) (length cells.old)) }
    ensures lengths_left { lengths.new ≡ copy_sound_lengths s.now kind id lengths.old cells.old }
    ensures cells_left { cells.new ≡ copy_sound_cells s.now kind id lengths.old cells.old }
{
    let r = tabled(s, kind, id)?;
    Lists { s, r }.copy(lengths, cells)
}
