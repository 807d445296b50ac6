//! The test of states: whether they may be parsed with, wherever they come from.
//!
//! The parts of the test stand in crates of their own, each true exactly where its clause holds. `StatesOver` in `specs/` says over
//! which terminals states are.
#![tactic(auto)]

mod checking;
pub mod closure;

pub use checking::check_states;
