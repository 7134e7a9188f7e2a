// The script language's lines: their words, what a call's words are to be and what is said of them, lists of numbers, and how lists are
// written in answer.

#![tactic(auto)]

pub mod expected;
pub mod forms;
pub mod lists;
pub mod names;
pub mod say;
pub mod words;
