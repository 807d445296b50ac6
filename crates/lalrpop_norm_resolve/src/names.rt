//! The third pass of the normalizer: each name of a grammar is resolved, or what is wrong with one is told.

mod definitions;
mod duplicates;
mod faults;
mod resolver;
mod resolving;
mod rewriting;
mod rule_names;
mod types;

pub use resolving::resolve;
