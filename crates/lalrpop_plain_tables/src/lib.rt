//! Plain productions as lines of text, and what is told of their tables.
#![tactic(auto)]

pub mod answers;
pub mod lines;
