//! The token check of the normalizer: the entries of a grammar's tokenizer.
//!
//! `token_check::validate` puts an item with these entries behind the items of an expanded grammar. They are defined in
//! `specs/Entries.antt`: those of the match block in written order, with `_` for the literals in use that no entry lists, or
//! without a block all literals in use. `TokenFaultInExpanded` in `specs/Faults.antt` says which fault stands with which span. Places
//! are told of the written grammar, so who expands a grammar keeps its [`LiteralPlaces`] before.
#![tactic(auto)]

mod automaton;
mod block;
mod entries;
mod lacking;
mod laws;
mod making;
mod noting;
mod places;
mod reading;
mod telling;
pub mod token_check;

pub use laws::{entries_are_unique, literals_have_entries};
pub use places::LiteralPlaces;
