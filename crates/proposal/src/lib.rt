// The proposal: which candidate to decide next, by document 01's walk over the queued clauses.

#![tactic(auto)]

ghost use Rattle.std.specs.Prelude.{◌≡◌, ◌≤◌, length, IfOk};
ghost use Rattle.store.specs.Layout.{words};
ghost use Rattle.proposal.specs.Propose.{Numbered, unsynced, proposal_row};
ghost use Rattle.store.specs.Row.{answer_any, left_any};

use store::{Refusal, areas, shape};
use trail::entries;

pub mod decide_queue;

// What a proposal tells. A dead clause is no `Err`: it alone of the refusals leaves what the walk did, and tells a clause and a count.
#[derive(Clone, Copy)]
pub enum Proposal {
    Choose {
        candidate: u32,
        parent: u32,
        clause: u32,
        activity: f32,
        count: u32,
        dropped: u32,
    },
    // No clause is open.
    Nothing {
        dropped: u32,
    },
    // The walk reached a dead clause: number 8.
    Dead {
        clause: u32,
        dropped: u32,
    },
}

// Whether the trail has moved since the last sync.
#[tactic(auto, unfolding(crate::specs::Propose::unsynced))]
fn is_unsynced(s: &[u32]) -> bool
    requires { words ≤ length s.now }
    ensures { result ≡ unsynced s.now }
{
    let mirrored = areas::MIRROR_LENGTH.at(s, 0);
    entries::floor(s) < mirrored || mirrored < entries::length(s)
}

// Proposes the candidate to decide next.
pub fn propose(s: &mut [u32]) -> Result<Proposal, Refusal>
    ensures answer { result ≡ answer_any s.old (proposal_row s.old) }
    ensures left { s.new ≡ left_any s.old (proposal_row s.old) }
    ensures numbered { IfOk result Numbered }
{
    shape::check(s)?;
    if is_unsynced(s) {
        return Err(Refusal::Unsynced);
    }
    Ok(decide_queue::propose(s))
}
