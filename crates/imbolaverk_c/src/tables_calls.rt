// Loading version sets, unions, disjunctions and condition nodes.
ghost use Rattle.std.specs.Prelude.{◌≡◌};
ghost use Rattle.imbolaverk.specs.Calls.{number_of, left_by, load_version_set, load_union, load_disjunction, load_condition};

use imbolaverk::tables_calls;

// Loads a version set with its name.
#[unsafe(no_mangle)]
pub extern "C" fn imb_load_version_set(s: &mut [u32], set: u32, name: u32) -> u32
    ensures number { result ≡ number_of s.old (load_version_set set name) }
    ensures left { s.new ≡ left_by s.old (load_version_set set name) }
{
    tables_calls::imb_load_version_set(s, set, name)
}

// Loads a union of version sets.
#[unsafe(no_mangle)]
pub extern "C" fn imb_load_union(s: &mut [u32], union: u32, members: &[u32]) -> u32
    ensures number { result ≡ number_of s.old (load_union union members.now) }
    ensures left { s.new ≡ left_by s.old (load_union union members.now) }
{
    tables_calls::imb_load_union(s, union, members)
}

// Loads a disjunction: literal j is variables[j] with signs[j] (0 plain, 1 negated).
#[unsafe(no_mangle)]
pub extern "C" fn imb_load_disjunction(
    s: &mut [u32],
    disjunction: u32,
    variables: &[u32],
    signs: &[u32],
) -> u32
    ensures number { result ≡ number_of s.old (load_disjunction disjunction variables.now signs.now) }
    ensures left { s.new ≡ left_by s.old (load_disjunction disjunction variables.now signs.now) }
{
    tables_calls::imb_load_disjunction(s, disjunction, variables, signs)
}

// Loads a condition node: kind 0 is a leaf of the version set `left`, 1 the `and` and 2 the `or` of two nodes.
#[unsafe(no_mangle)]
pub extern "C" fn imb_load_condition(
    s: &mut [u32],
    node: u32,
    kind: u32,
    left: u32,
    right: u32,
) -> u32
    ensures number { result ≡ number_of s.old (load_condition node kind left right) }
    ensures left { s.new ≡ left_by s.old (load_condition node kind left right) }
{
    tables_calls::imb_load_condition(s, node, kind, left, right)
}
