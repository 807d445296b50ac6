//! A grammar by numbers, its first sets, and the closure of a seed of items.
//!
//! `FirstSets` is for those who ask by name. `Numbered` is a grammar's table of numbers: each item is told by its place, the one
//! at which the symbol behind its dot stands. `Closures` has besides the first set at each place, and closes a seed of items, with
//! lookaheads or without; `flow` lets lookaheads flow along any edges. In `specs/`, `NumberedGrammars` says when a table is a
//! grammar's, and which item stands at a place; `FirstSetsOf` what first sets are, `ClosureTables` what a closure brings.
#![tactic(auto)]

mod closure;
mod closure_lookahead;
mod first_of;
mod first_sets;
mod flowing;
mod laying;
mod listing;
mod names;
mod numbered;
mod place;
mod walk;

pub use closure::Closures;
pub use closure_lookahead::ClosureLookahead;
pub use first_sets::FirstSets;
pub use flowing::{Edge, flow};
pub use numbered::Numbered;
pub use place::{NumberedRule, Place};
