//! The search for the calls of macros that a grammar makes, by least depth, and for its keys, that is for the symbols that have a
//! rule of their own once macros are expanded.
#![tactic(auto)]

mod arity;
mod called;
mod callers;
mod conditions;
mod instances;
pub mod key_place_law;
pub mod key_places;
pub mod key_table;
mod keys;
mod laws;
mod places;
mod plain;
mod rounds;

pub use arity::check_arity;
pub use conditions::told_fault;
pub use keys::find_keys;
pub use laws::tables_are_between;
pub use rounds::{FoundCalls, find_calls};
