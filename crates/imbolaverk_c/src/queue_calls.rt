// The queue: syncing and proposing.
ghost use Rattle.std.specs.Prelude.{◌≡◌};
ghost use Rattle.imbolaverk.specs.Calls.{number_of, left_by, values_of, sync, propose};
ghost use Rattle.imbolaverk.specs.Proposed.{proposed};
ghost use Rattle.imbolaverk.specs.Written.{written};
ghost use Rattle.proposal.specs.Propose.{proposal_row};
ghost use Rattle.store.specs.Row.{answer_any};

use imbolaverk::queue_calls;

#[unsafe(no_mangle)]
pub extern "C" fn imb_sync(s: &mut [u32], out: &mut [u32; 1]) -> u32
    ensures number { result ≡ number_of s.old sync }
    ensures left { s.new ≡ left_by s.old sync }
    ensures told { out.new ≡ written (values_of s.old sync) out.old }
{
    queue_calls::imb_sync(s, out)
}

#[unsafe(no_mangle)]
pub extern "C" fn imb_propose(s: &mut [u32], out: &mut [u32; 7]) -> u32
    ensures number { result ≡ number_of s.old propose }
    ensures left { s.new ≡ left_by s.old propose }
    ensures told { out.new ≡ proposed (answer_any s.old (proposal_row s.old)) out.old }
{
    queue_calls::imb_propose(s, out)
}
