//! The pass of the normalizer over macros: a grammar with a rule for each call, repeat, group and lookaround, and without macros.
//!
//! Keys are found first, then named, and then their rules are written, against tables that no longer change.
#![tactic(auto)]

mod expanding;
mod finding;
pub mod key_names;
pub mod key_rules;
pub mod key_symbols;
mod writing;

pub use expanding::{expand_macros, expand_macros_by};
