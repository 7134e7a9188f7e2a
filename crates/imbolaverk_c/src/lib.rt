// The C symbols: each calls the entry point of `imbolaverk` that has its name, and promises what that promises, in the same words. C links this
// crate's archive, and Rattle crates use `imbolaverk`.

#![tactic(auto)]

mod clauses_calls;
mod conditions_calls;
mod copy_trail;
mod queue_calls;
mod requirement_calls;
mod settings_calls;
mod store_calls;
mod tables_calls;
mod trail_calls;
