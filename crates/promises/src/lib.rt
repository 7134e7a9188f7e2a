// The promises: no code, only theorems about the calls of the crates below.

#![tactic(auto)]
