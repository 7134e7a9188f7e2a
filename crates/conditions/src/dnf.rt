// Rewriting a condition on a store of sound shape. The crate's public calls test the shape and then call these.
// Term i under a link is found by its index, so nothing is kept between the terms.
ghost use Rattle.std.specs.Prelude.{◌≡◌, true, ◌+◌, ◌≤◌, min, length, IfOk};
ghost use Rattle.std.proofs.lemmas.List.Edits.{sets};
ghost use Rattle.rules.specs.Numbers.{all_from};
ghost use Rattle.store.specs.Limits.{most_terms, most_sets, nodes};
ghost use Rattle.store.specs.Shape.{Sound};
ghost use Rattle.conditions.specs.Dnf.{linked, term_of};
ghost use Rattle.conditions.specs.Ways.{CountedBelow, Tallied, Asked, AllAsked, Good};
ghost use Rattle.conditions.specs.Rewrite.{rewrite_sound_lengths, rewrite_sound_cells, rewrite_row};
ghost use Rattle.conditions.specs.Steps.{Measured, Fitting, cells_to, short_at, lengths_left, cells_left};
ghost use Rattle.store.specs.Row.{answer_sound};

use crate::Rewritten;
use crate::tree::{Node, node_under};
use store::{Refusal, areas, limits, wide};

// A place for each link: none, and each node.
const LINKS: usize = limits::NODES + 1;

// One more than the limit stands for every number of terms that is above it.
const MANY_TERMS: u32 = limits::MOST_TERMS as u32 + 1;

// The same for the length of a term.
const MANY_SETS: u32 = limits::MOST_SETS as u32 + 1;

// A term: the link that it is under, and its place among the terms there.
#[derive(Clone, Copy, PartialEq, Eq)]
pub struct Term {
    pub link: usize,
    pub index: usize,
}

// Where a term comes from: a leaf's version set, a term under another link, or one followed by another.
#[derive(Clone, Copy, PartialEq, Eq)]
pub enum Way {
    Leaf(u32),
    One(Term),
    Two(Term, Term),
}

// A store, and how many terms are under each link. The counts have a place for each, since nothing is allocated.
#[derive(Drop)]
struct Tally<'a> {
    s: &'a [u32],
    counts: [u32; LINKS],
    ghost sound: { Sound s.now },
    ghost tallied: { Tallied s.now counts },
}

// How many terms are under a link, from the counts of the smaller ones.
#[tactic(auto, using(crate::proofs::Terms::count_and))]
fn count_under(s: &[u32], counts: &[u32; LINKS], link: usize) -> u32
    requires sound { Sound s.now }
    requires inside { link ≤ nodes }
    requires counted { CountedBelow s.now link counts.now }
    ensures { result ≡ min (most_terms + 1) (length (linked s.now link)) }
{
    match node_under(s, link) {
        None => 0,
        Some(Node::Leaf(_)) => 1,
        Some(Node::And(l, r)) => MANY_TERMS.min(counts[l] * counts[r]),
        Some(Node::Or(l, r)) => MANY_TERMS.min(counts[l] + counts[r]),
    }
}

impl<'a> Tally<'a> {
    // Counts the terms under every link, from the smallest on.
    fn of(s: &'a [u32]) -> Tally<'a>
        requires { Sound s.now }
        ensures { result.s.now ≡ s.now }
    {
        let mut counts: [u32; LINKS] = [0; LINKS];
        for link in 0..LINKS {
            counts[link] = count_under(s, &counts, link);
        }
        Tally { s, counts }
    }

    // Where a term comes from. That a term is asked of this tally ties two values, and is the invariant of neither.
    #[tactic(auto, using(crate::proofs::Finding::ways))]
    fn way_of(&self, term: Term) -> Way
        requires { Asked self.now.s.now term.link term.index }
        ensures { Good self.now.s.now term.link term.index result }
    {
        match node_under(self.s, term.link) {
            None => unreachable!(),
            Some(Node::Leaf(v)) => Way::Leaf(v),
            Some(Node::And(l, r)) => {
                let n = wide(self.counts[r]);
                let left = Term {
                    link: l,
                    index: term.index / n,
                };
                let right = Term {
                    link: r,
                    index: term.index % n,
                };
                Way::Two(left, right)
            }
            Some(Node::Or(l, r)) => {
                let n = wide(self.counts[l]);
                if term.index < n {
                    Way::One(Term { link: l, ..term })
                } else {
                    Way::One(Term {
                        link: r,
                        index: term.index - n,
                    })
                }
            }
        }
    }

    // How many version sets a term has, at most `MANY_SETS`. A first part that has as many settles the whole.
    #[tactic(auto, using(crate::proofs::Measuring::parts_length))]
    fn term_length(&self, term: Term) -> u32
        requires { Asked self.now.s.now term.link term.index }
        ensures { result ≡ min (most_sets + 1) (length (term_of self.now.s.now term.link term.index)) }
    {
        match self.way_of(term) {
            Way::Leaf(_) => 1,
            Way::One(only) => self.term_length(only),
            Way::Two(first, second) => {
                let n = self.term_length(first);
                if n == MANY_SETS {
                    return n;
                }
                MANY_SETS.min(n + self.term_length(second))
            }
        }
    }

    // Writes a term from a place on, and answers the place behind it.
    #[tactic(auto, using(crate::proofs::Measuring::parts_length, crate::proofs::Writing::sets_append))]
    fn emit(&self, term: Term, out: &mut [u32], from: usize) -> usize
        requires asked { Asked self.now.s.now term.link term.index }
        requires inside { from + length (term_of self.now.s.now term.link term.index) ≤ length out.old }
        ensures behind { result ≡ from + length (term_of self.now.s.now term.link term.index) }
        ensures left { out.new ≡ sets out.old from (term_of self.now.s.now term.link term.index) }
    {
        match self.way_of(term) {
            Way::Leaf(v) => {
                out[from] = v;
                from + 1
            }
            Way::One(only) => self.emit(only, out, from),
            Way::Two(first, second) => {
                let to = self.emit(first, out, from);
                self.emit(second, out, to)
            }
        }
    }

    // How many version sets the n terms under a link have together; none where one of them has too many.
    #[tactic(auto, using(crate::proofs::Measuring::measuring, rules::proofs::Loops::testing_all))]
    fn measure(&self, link: usize, n: usize) -> Option<usize>
        requires { AllAsked self.now.s.now link n }
        ensures { Measured self.now.s.now link n result }
    {
        let mut total: usize = 0;
        for index in 0..n {
            let length = self.term_length(Term { link, index });
            if length == MANY_SETS {
                return None;
            }
            total += wide(length);
        }
        Some(total)
    }

    // What rewriting would answer, given the lengths of the two lent lists.
    #[tactic(auto, using(crate::proofs::Whole::whole), unfolding(crate::specs::Rewrite::rewrite_tests, crate::specs::Rewrite::too_much))]
    fn rewrite_case(&self, node: u32, rooms: usize, room: usize) -> Result<Rewritten, Refusal>
        ensures answer { result ≡ answer_sound (rewrite_row self.now.s.now node rooms room) }
        ensures fits { IfOk result (λ r. Fitting self.now.s.now (node + 1) r.terms rooms room) }
    {
        if limits::NODES as u32 <= node {
            return Err(Refusal::BadId);
        }
        let k = wide(node);
        if areas::NODE_KINDS.at(self.s, k) == 0 {
            return Err(Refusal::BadId);
        }
        let n = wide(self.counts[k + 1]);
        if limits::MOST_TERMS < n {
            return Err(Refusal::NoRoom);
        }
        match self.measure(k + 1, n) {
            Some(total) if n <= rooms && total <= room => Ok(Rewritten {
                terms: n as u32,
                cells: total as u32,
            }),
            _ => Err(Refusal::NoRoom),
        }
    }

    // Writes the n terms under a link and their lengths.
    #[tactic(auto, using(crate::proofs::Measuring::measuring, crate::proofs::Writing::writing))]
    fn write_terms(&self, link: usize, n: usize, lengths: &mut [u32], cells: &mut [u32])
        requires asked { AllAsked self.now.s.now link n }
        requires rooms { n ≤ length lengths.old }
        requires room { cells_to self.now.s.now link n ≤ length cells.old }
        requires short { all_from (short_at self.now.s.now link) 0 n ≡ true }
        ensures lengths_left { lengths.new ≡ lengths_left self.now.s.now link lengths.old n }
        ensures cells_left { cells.new ≡ cells_left self.now.s.now link cells.old n }
    {
        let mut from: usize = 0;
        for index in 0..n {
            let to = self.emit(Term { link, index }, cells, from);
            lengths[index] = (to - from) as u32;
            from = to;
        }
    }
}

#[tactic(auto, using(crate::proofs::Whole::whole), unfolding(crate::specs::Rewrite::rewrite_sound_lengths, crate::specs::Rewrite::rewrite_sound_cells))]
pub fn rewrite(
    s: &[u32],
    node: u32,
    lengths: &mut [u32],
    cells: &mut [u32],
) -> Result<Rewritten, Refusal>
    requires { Sound s.now }
    ensures answer { result ≡ answer_sound (rewrite_row s.now node (length lengths.old) (length cells.old)) }
    ensures lengths_left { lengths.new ≡ rewrite_sound_lengths s.now node lengths.old cells.old }
    ensures cells_left { cells.new ≡ rewrite_sound_cells s.now node lengths.old cells.old }
{
    let tally = Tally::of(s);
    let answer = tally.rewrite_case(node, lengths.len(), cells.len())?;
    tally.write_terms(wide(node) + 1, wide(answer.terms), lengths, cells);
    Ok(answer)
}
