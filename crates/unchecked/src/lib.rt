// The calls that the benchmark times without their check of the shape: each is its entry point of `imbolaverk` less that check. For the
// benchmark alone: a store must be of sound shape, and nothing here tests that it is, so no host may call these.

#![tactic(auto)]

ghost use Rattle.std.specs.Prelude.{cond, ◌≡◌, Ok};
ghost use Rattle.clauses.specs.Register.{register_row};
ghost use Rattle.imbolaverk.specs.Proposed.{proposed};
ghost use Rattle.imbolaverk.specs.Written.{written};
ghost use Rattle.proposal.specs.Propose.{proposal_answer, proposal_left, proposal_number};
ghost use Rattle.store.specs.Row.{answer_number, answer_sound, answer_values, left_sound};
ghost use Rattle.store.specs.Shape.{Sound, sound_shape};
ghost use Rattle.sync.specs.Sync.{touches_in, sync_left, synced_values};
ghost use Rattle.trail.specs.Assign.{assigned_values, assign_row};
ghost use Rattle.trail.specs.Next.{next_answer, next_left, next_values};
ghost use Rattle.trail.specs.UndoLast.{undone_values, undo_last_row};
ghost use Rattle.trail.specs.UndoUntil.{undo_until_row};

use clauses::registering;
use imbolaverk::{out, queue_calls};
use store::shape;
use trail::decision_tracker;

// The check itself: 1 if the store is of sound shape.
#[unsafe(no_mangle)]
pub extern "C" fn unchecked_sound(s: &[u32]) -> u32
    ensures { result ≡ cond (sound_shape s.now) 1 0 }
{
    u32::from(shape::sound(s))
}

#[unsafe(no_mangle)]
pub extern "C" fn unchecked_register(
    s: &mut [u32],
    parent: u32,
    kind: u32,
    requirement: u32,
    condition: u32,
    clause: u32,
) -> u32
    requires { Sound s.old }
    ensures number { result ≡ answer_number (answer_sound (register_row s.old parent kind requirement condition 0)) }
    ensures left { s.new ≡ left_sound s.old (register_row s.old parent kind requirement condition clause) }
{
    out::number(registering::register(s, parent, kind, requirement, condition, clause))
}

#[unsafe(no_mangle)]
pub extern "C" fn unchecked_assign(
    s: &mut [u32],
    variable: u32,
    value: u32,
    level: u32,
    clause: u32,
    out: &mut [u32; 1],
) -> u32
    requires { Sound s.old }
    ensures number { result ≡ answer_number (answer_sound (assign_row s.old variable value level 0)) }
    ensures left { s.new ≡ left_sound s.old (assign_row s.old variable value level clause) }
    ensures told { out.new ≡ written (answer_values assigned_values (answer_sound (assign_row s.old variable value level 0))) out.old }
{
    out::give(
        decision_tracker::assign(s, variable, value, level, clause),
        out,
    )
}

#[unsafe(no_mangle)]
pub extern "C" fn unchecked_undo_last(s: &mut [u32], out: &mut [u32; 4]) -> u32
    requires { Sound s.old }
    ensures number { result ≡ answer_number (answer_sound (undo_last_row s.old)) }
    ensures left { s.new ≡ left_sound s.old (undo_last_row s.old) }
    ensures told { out.new ≡ written (answer_values undone_values (answer_sound (undo_last_row s.old))) out.old }
{
    out::give(decision_tracker::undo_last(s), out)
}

#[unsafe(no_mangle)]
pub extern "C" fn unchecked_undo_until(s: &mut [u32], level: u32) -> u32
    requires { Sound s.old }
    ensures number { result ≡ answer_number (answer_sound (undo_until_row s.old level)) }
    ensures left { s.new ≡ left_sound s.old (undo_until_row s.old level) }
{
    out::number(decision_tracker::undo_until(s, level))
}

#[unsafe(no_mangle)]
pub extern "C" fn unchecked_next(s: &mut [u32], out: &mut [u32; 4]) -> u32
    requires { Sound s.old }
    ensures number { result ≡ 0 }
    ensures left { s.new ≡ next_left s.old }
    ensures told { out.new ≡ written (next_values (next_answer s.old)) out.old }
{
    out::give(Ok(decision_tracker::next_unpropagated(s)), out)
}

#[unsafe(no_mangle)]
pub extern "C" fn unchecked_sync(s: &mut [u32], out: &mut [u32; 1]) -> u32
    requires { Sound s.old }
    ensures number { result ≡ 0 }
    ensures left { s.new ≡ sync_left s.old }
    ensures told { out.new ≡ written (synced_values (touches_in s.old)) out.old }
{
    out::give(Ok(sync::decide_queue::sync(s)), out)
}

// The store must be synced too for the answer to be the public call's: 7 is not tested.
#[unsafe(no_mangle)]
pub extern "C" fn unchecked_propose(s: &mut [u32], out: &mut [u32; 7]) -> u32
    requires { Sound s.old }
    ensures number { result ≡ proposal_number (Ok (proposal_answer s.old)) }
    ensures left { s.new ≡ proposal_left s.old }
    ensures told { out.new ≡ proposed (Ok (proposal_answer s.old)) out.old }
{
    queue_calls::give_proposal(Ok(proposal::decide_queue::propose(s)), out)
}
