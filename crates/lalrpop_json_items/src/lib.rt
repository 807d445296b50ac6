//! The items of a grammar as JSON: rules, match blocks, extern blocks and imports, read with the first fault of a value that
//! spells none.
//!
//! What reading gives stands as definitions over the JSON value in `specs/`, beside the one JSON value that spells each.
#![tactic(auto)]

mod alternative;
mod extern_block;
mod item;
mod match_block;
mod rule;
pub mod writer;

pub use item::{item_of, items_field};
