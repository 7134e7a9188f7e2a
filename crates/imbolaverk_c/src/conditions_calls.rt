// Conditions: rewriting one to its terms; whether a disjunct holds.
ghost use Rattle.std.specs.Prelude.{◌≡◌, length};
ghost use Rattle.imbolaverk.specs.Calls.{ask, number_of, values_of, rewrite, disjunct_holds};
ghost use Rattle.conditions.specs.Rewrite.{rewrite_lengths, rewrite_cells, rewritten_values, rewrite_row};
ghost use Rattle.imbolaverk.specs.Written.{written};
ghost use Rattle.store.specs.Row.{answer_any, answer_values};

use imbolaverk::conditions_calls;

// Rewrites the condition of a node to its terms.
#[unsafe(no_mangle)]
pub extern "C" fn imb_rewrite(
    s: &[u32],
    node: u32,
    lengths: &mut [u32],
    cells: &mut [u32],
    out: &mut [u32; 2],
) -> u32
    ensures number { result ≡ number_of s.now (ask (rewrite node lengths.old cells.old)) }
    ensures lengths_left { lengths.new ≡ rewrite_lengths s.now node lengths.old cells.old }
    ensures cells_left { cells.new ≡ rewrite_cells s.now node lengths.old cells.old }
    ensures told { out.new ≡ written (answer_values rewritten_values (answer_any s.now (rewrite_row s.now node (length lengths.old) (length cells.old)))) out.old }
{
    conditions_calls::imb_rewrite(s, node, lengths, cells, out)
}

// Whether each conjunct has a candidate assigned true: conjunct j is of kinds[j] over cells[starts[j] .. starts[j] + lengths[j]].
#[unsafe(no_mangle)]
pub extern "C" fn imb_disjunct_holds(
    s: &[u32],
    kinds: &[u32],
    starts: &[u32],
    lengths: &[u32],
    cells: &[u32],
    out: &mut [u32; 1],
) -> u32
    ensures number { result ≡ number_of s.now (ask (disjunct_holds kinds.now starts.now lengths.now cells.now)) }
    ensures told { out.new ≡ written (values_of s.now (ask (disjunct_holds kinds.now starts.now lengths.now cells.now))) out.old }
{
    conditions_calls::imb_disjunct_holds(s, kinds, starts, lengths, cells, out)
}
