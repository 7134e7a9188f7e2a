// Candidate tables: loading, copying out.
ghost use Rattle.std.specs.Prelude.{◌≡◌, length};
ghost use Rattle.imbolaverk.specs.Calls.{ask, number_of, left_by, load_candidates, copy_candidates};
ghost use Rattle.imbolaverk.specs.Written.{written};
ghost use Rattle.requirement.specs.Copy.{copy_lengths, copy_cells, copied_values, copy_row};
ghost use Rattle.store.specs.Row.{answer_any, answer_values};

use imbolaverk::requirement_calls;

// Loads the candidate lists of a requirement (kind 0 single, 1 union): list j is the next lengths[j] cells.
#[unsafe(no_mangle)]
pub extern "C" fn imb_load_candidates(
    s: &mut [u32],
    kind: u32,
    id: u32,
    lengths: &[u32],
    cells: &[u32],
) -> u32
    ensures number { result ≡ number_of s.old (load_candidates kind id lengths.now cells.now) }
    ensures left { s.new ≡ left_by s.old (load_candidates kind id lengths.now cells.now) }
{
    requirement_calls::imb_load_candidates(s, kind, id, lengths, cells)
}

// Copies the candidate lists of a requirement out, as they were loaded.
#[unsafe(no_mangle)]
pub extern "C" fn imb_copy_candidates(
    s: &[u32],
    kind: u32,
    id: u32,
    lengths: &mut [u32],
    cells: &mut [u32],
    out: &mut [u32; 2],
) -> u32
    ensures number { result ≡ number_of s.now (ask (copy_candidates kind id lengths.old cells.old)) }
    ensures lengths_left { lengths.new ≡ copy_lengths s.now kind id lengths.old cells.old }
    ensures cells_left { cells.new ≡ copy_cells s.now kind id lengths.old cells.old }
    ensures told { out.new ≡ written (answer_values copied_values (answer_any s.now (copy_row s.now kind id (length lengths.old) (length cells.old)))) out.old }
{
    requirement_calls::imb_copy_candidates(s, kind, id, lengths, cells, out)
}
