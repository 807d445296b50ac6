//! The items of a grammar as JSON values: rules, token blocks and `use` lines.
//!
//! What spells them, and which of them have a spelling, stands as definitions in `specs/`. Here each kind of
//! part has a function that writes it, and one that tells whether it has a spelling.

mod alternative;
mod extern_block;
mod item;
mod match_block;
mod rule;

pub use item::{are_readable_items, items_value};
