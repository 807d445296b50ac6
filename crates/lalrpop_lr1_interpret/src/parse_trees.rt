//! Parse trees without productions: nonterminals over trees, and terminals.
//!
//! `NamedTrees` in `specs/` says which trees of the tables' theory they are, without productions; `ParseTreeTexts` their text.

mod parse_tree;
mod parse_tree_text;

pub use parse_tree::ParseTree;
