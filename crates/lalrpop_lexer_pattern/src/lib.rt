//! Patterns of a lexer as trees: what they are, which words they match, and sets of characters for them.
//!
//! A tree is a [`Hir`]. Its meaning as a pattern, and the words that a pattern matches, are defined in `specs/`.
#![tactic(auto)]

mod class;
mod constructors;
mod copies;
mod laws;
mod literal;
mod partners;
mod refusal;
mod set;
mod set_algebra;
mod set_builder;
mod set_named;
mod touching;
mod tree;

pub use class::{Class, Range};
pub use laws::sets_are_their_members;
pub use literal::{characters_of, parse_literal};
pub use refusal::Refusal;
pub use set::CharacterSet;
pub use set_builder::CharacterSetBuilder;
pub use tree::{Hir, Look, Regex, Repeats};
