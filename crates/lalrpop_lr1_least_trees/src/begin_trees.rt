//! Trees of a grammar's nonterminals that begin with a terminal: by which production and place they do, and the moves that build them.
//!
//! They are found among the trees of derived rules, in which each name stands three times: for all its trees, for those without
//! leaves, and for those that begin with the terminal. In `specs/`, `DerivedRules` says which rules are derived, `BeginForests` what
//! the calls answer.

mod begin_trees;
mod derived;
mod kinds;
mod sides;

pub use begin_trees::BeginTrees;
