//! Parsing by states: the tree of tokens, or where they go wrong.
//!
//! A table of actions (`ActionTable`) says what states do, by numbers. One machine runs it over tokens; what it makes is a
//! `TreeStack`, which contracts see as a list of trees of the tables' theory over tokens. `Tables` in `specs/` says when a table is one
//! of states, `Ends` how a run ends, `Parses` which answer to tokens is right.

mod action_table;
mod columns;
mod entries;
mod expanded_tree;
mod machine;
mod move_order;
mod numbering;
mod parse;
mod stop;
mod table_making;
mod table_row;
mod token_numbers;
mod tree_entry;
mod tree_list;
mod tree_ref;
mod tree_stack;

pub use action_table::ActionTable;
pub use columns::Columns;
pub use expanded_tree::ExpandedTree;
pub use machine::{Halt, run};
pub use move_order::{lists_are_trees, moves_are_entries};
pub use parse::parse_limited;
pub use stop::Stop;
pub use token_numbers::TokenNumbers;
pub use tree_entry::{TreeEntry, TreeLabel};
pub use tree_list::TreeList;
pub use tree_ref::{TreeRef, TreeRefs};
pub use tree_stack::{NoTrees, TreeStack};
