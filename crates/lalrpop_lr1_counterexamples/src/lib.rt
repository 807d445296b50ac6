//! Counterexamples: for each conflict two sentences, alike before one point, with trees that need different moves there.
#![tactic(auto)]

pub mod action_moves;
pub mod certificates;
pub mod conflict_laws;
pub mod conflict_moves;
pub mod shift_positions;
pub mod shown_laws;
pub mod shown_moves;
