// Copying the whole trail out into a lent list of decisions.
ghost use Rattle.std.specs.Prelude.{◌≡◌, length};
ghost use Rattle.imbolaverk.specs.Calls.{ask, number_of, copy_trail};
ghost use Rattle.imbolaverk.specs.CopyTrail.{copied, copied_count, copy_trail_row};
ghost use Rattle.imbolaverk.specs.Written.{written};
ghost use Rattle.trail.specs.Look.{length_values};
ghost use Rattle.store.specs.Row.{answer_any, answer_values};

use imbolaverk::copy_trail;
use trail::Decision;

// Copies the whole trail out; a shorter list is refused with 3.
#[unsafe(no_mangle)]
pub extern "C" fn imb_copy_trail(s: &[u32], list: &mut [Decision], out: &mut [u32; 1]) -> u32
    ensures number { result ≡ number_of s.now (ask (copy_trail list.old)) }
    ensures list_left { list.new ≡ copied s.now list.old (copied_count (answer_any s.now (copy_trail_row s.now (length list.old)))) }
    ensures told { out.new ≡ written (answer_values length_values (answer_any s.now (copy_trail_row s.now (length list.old)))) out.old }
{
    copy_trail::imb_copy_trail(s, list, out)
}
