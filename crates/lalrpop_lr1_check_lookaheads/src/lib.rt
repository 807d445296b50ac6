//! Parts of the test of states: how items follow edges, and whether states reduce before all lookaheads that reach them.
#![tactic(auto)]

pub mod lookaheads;
pub mod parts;
