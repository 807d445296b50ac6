//! Literals, symbols, types and attributes as JSON: reading them, with the first fault of a value that spells none.
//!
//! What reading gives stands as definitions over the JSON value in `specs/`, beside the one JSON value that spells each.
#![tactic(auto)]

mod attribute;
mod literal;
mod symbol;
mod type_ref;
pub mod writer;

pub use attribute::{attribute_of, attributes_field};
pub use literal::{literal_field, literal_of, terminal_field, terminal_of};
pub use symbol::{symbol_field, symbol_of, symbols_field};
pub use type_ref::{type_field, type_of};
