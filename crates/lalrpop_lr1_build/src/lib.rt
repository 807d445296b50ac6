//! The construction of LR(1) states: canonical ones, and those without lookaheads, or their conflicts.
#![tactic(auto)]

pub mod builder;
pub mod collapse;
mod conflicts;
mod construction;
mod map_edges;
mod public_states;
mod rule_numbers;
mod start;
pub mod states;

pub use conflicts::conflicts_of;
pub use construction::{all_states, build_lr0_states, build_lr1_states_canonical, build_states};
