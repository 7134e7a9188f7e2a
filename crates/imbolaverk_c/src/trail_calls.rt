// The trail: assigning, undoing, looking up.
ghost use Rattle.std.specs.Prelude.{◌≡◌};
ghost use Rattle.imbolaverk.specs.Calls.{ask, number_of, left_by, values_of, assign, undo_last, undo_until, next_unpropagated, value_of, clause_of_variable, length_of_trail};
ghost use Rattle.imbolaverk.specs.Written.{written};

use imbolaverk::trail_calls;

// Assigns a value (0 false, 1 true) to a variable at a level, for a clause.
#[unsafe(no_mangle)]
pub extern "C" fn imb_assign(
    s: &mut [u32],
    variable: u32,
    value: u32,
    level: u32,
    clause: u32,
    out: &mut [u32; 1],
) -> u32
    ensures number { result ≡ number_of s.old (assign variable value level clause) }
    ensures left { s.new ≡ left_by s.old (assign variable value level clause) }
    ensures told { out.new ≡ written (values_of s.old (assign variable value level clause)) out.old }
{
    trail_calls::imb_assign(s, variable, value, level, clause, out)
}

// Takes the last entry back; with fewer than two entries 6.
#[unsafe(no_mangle)]
pub extern "C" fn imb_undo_last(s: &mut [u32], out: &mut [u32; 4]) -> u32
    ensures number { result ≡ number_of s.old undo_last }
    ensures left { s.new ≡ left_by s.old undo_last }
    ensures told { out.new ≡ written (values_of s.old undo_last) out.old }
{
    trail_calls::imb_undo_last(s, out)
}

// Takes entries back while the last one's level is above `level`; 0 clears the trail.
#[unsafe(no_mangle)]
pub extern "C" fn imb_undo_until(s: &mut [u32], level: u32) -> u32
    ensures number { result ≡ number_of s.old (undo_until level) }
    ensures left { s.new ≡ left_by s.old (undo_until level) }
{
    trail_calls::imb_undo_until(s, level)
}

// Hands out the entry at the propagation index, which moves on.
#[unsafe(no_mangle)]
pub extern "C" fn imb_next_unpropagated(s: &mut [u32], out: &mut [u32; 4]) -> u32
    ensures number { result ≡ number_of s.old next_unpropagated }
    ensures left { s.new ≡ left_by s.old next_unpropagated }
    ensures told { out.new ≡ written (values_of s.old next_unpropagated) out.old }
{
    trail_calls::imb_next_unpropagated(s, out)
}

// The value (0 false, 1 true, 2 undecided) and the level of a variable.
#[unsafe(no_mangle)]
pub extern "C" fn imb_value_of(s: &[u32], variable: u32, out: &mut [u32; 2]) -> u32
    ensures number { result ≡ number_of s.now (ask (value_of variable)) }
    ensures told { out.new ≡ written (values_of s.now (ask (value_of variable))) out.old }
{
    trail_calls::imb_value_of(s, variable, out)
}

// The clause that a variable was assigned for, if it was assigned.
#[unsafe(no_mangle)]
pub extern "C" fn imb_clause_of(s: &[u32], variable: u32, out: &mut [u32; 2]) -> u32
    ensures number { result ≡ number_of s.now (ask (clause_of_variable variable)) }
    ensures told { out.new ≡ written (values_of s.now (ask (clause_of_variable variable))) out.old }
{
    trail_calls::imb_clause_of(s, variable, out)
}

// How many entries the trail has.
#[unsafe(no_mangle)]
pub extern "C" fn imb_trail_length(s: &[u32], out: &mut [u32; 1]) -> u32
    ensures number { result ≡ number_of s.now (ask length_of_trail) }
    ensures told { out.new ≡ written (values_of s.now (ask length_of_trail)) out.old }
{
    trail_calls::imb_trail_length(s, out)
}
