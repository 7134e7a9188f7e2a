// The tree of a condition, as the words hold it. A link is the stored word: 0 for none, else one more than a node; the links below a node are at most its number.
ghost use Rattle.std.specs.Prelude.{◌≡◌, ◌≤◌};
ghost use Rattle.store.specs.Limits.{nodes};
ghost use Rattle.store.specs.Shape.{Sound};
ghost use Rattle.conditions.specs.Tree.{node_at, Read};

use store::{areas, codes, wide};

// What a node is: a version set, or two links.
#[derive(Clone, Copy, PartialEq, Eq)]
pub enum Node {
    Leaf(u32),
    And(usize, usize),
    Or(usize, usize),
}

// The node under a link; none where it is not loaded.
#[tactic(auto, using(crate::proofs::Terms::reading), unfolding(crate::specs::Dnf::node_terms, crate::specs::Tree::node_at, crate::specs::Tree::node_of))]
pub fn node_under(s: &[u32], link: usize) -> Option<Node>
    requires sound { Sound s.now }
    requires inside { link ≤ nodes }
    ensures node { result ≡ node_at s.now link }
    ensures terms { Read s.now link result }
{
    if link == 0 {
        return None;
    }
    let k = link - 1;
    let kind = areas::NODE_KINDS.at(s, k);
    if kind == 0 {
        return None;
    }
    if kind == codes::LEAF {
        return Some(Node::Leaf(areas::NODE_SETS.at(s, k)));
    }
    let l = wide(areas::NODE_LEFTS.at(s, k));
    let r = wide(areas::NODE_RIGHTS.at(s, k));
    if kind == codes::AND {
        return Some(Node::And(l, r));
    }
    Some(Node::Or(l, r))
}
