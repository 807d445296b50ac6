//! The pass that lowers an expanded grammar to plain productions: one for each alternative, with a start for each public rule.
//!
//! Actions are numbered first for starts, then for rules as they stand. `productions` makes the productions of starts and rules
//! by these numbers, `actions` the definitions and origins of the same numbers, `starts` what maps say of starts, and
//! `terminals` the set of terminals.
#![tactic(auto)]

mod actions;
mod lowering;
mod maps;
mod numbers;
mod productions;
mod starts;
mod symbols;
mod terminals;

pub use lowering::{Normalized, lower};
