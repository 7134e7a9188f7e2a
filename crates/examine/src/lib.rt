// Examining a clause: what it is by its requirement's cache or, where that is dirty, by its lists. The public calls above test
// the shape first.
// A requirement's key, a list's slot and a clause's rank are numbers: words hold them and loops run over them, so each contract says
// that they are in range, here and in the crates above. A type that says so would be made at every read of a word, which is no plainer.

#![tactic(auto)]

pub mod caches;
pub mod condition;
pub mod examination;
pub mod lists;
