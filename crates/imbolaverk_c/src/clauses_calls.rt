// Registering clauses.
ghost use Rattle.std.specs.Prelude.{◌≡◌};
ghost use Rattle.imbolaverk.specs.Calls.{number_of, left_by, register};

use imbolaverk::clauses_calls;

// Registers a clause; its condition is a disjunction, or 4,294,967,295 for none.
#[unsafe(no_mangle)]
pub extern "C" fn imb_register(
    s: &mut [u32],
    parent: u32,
    kind: u32,
    requirement: u32,
    condition: u32,
    clause: u32,
) -> u32
    ensures number { result ≡ number_of s.old (register parent kind requirement condition clause) }
    ensures left { s.new ≡ left_by s.old (register parent kind requirement condition clause) }
{
    clauses_calls::imb_register(s, parent, kind, requirement, condition, clause)
}
