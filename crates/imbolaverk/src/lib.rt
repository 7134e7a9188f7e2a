// The entry points on numbers and slices, which `imbolaverk_c` hands to C under their names. Each is total on any arguments, and answers 0
// for done or the number of its refusal. `out` gives that number, and writes an answer's values to the lent output.

#![tactic(auto, using(crate::proofs::Links::numbered, crate::proofs::Links::spoken))]

pub mod clauses_calls;
pub mod conditions_calls;
pub mod copy_trail;
pub mod out;
pub mod queue_calls;
pub mod requirement_calls;
pub mod settings_calls;
pub mod store_calls;
pub mod tables_calls;
pub mod trail_calls;
