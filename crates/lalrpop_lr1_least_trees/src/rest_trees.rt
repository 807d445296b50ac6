//! Trees of several symbols, such as stand behind a dot: any, those without leaves, and those that begin with a terminal; how many
//! leaves and nodes light ones have, and the moves that build them.
//!
//! `RestForests` in `specs/` says what the calls answer, `BeginPlaces` at which place trees of several symbols begin with a terminal.

mod begin_place;
mod begin_rest;
mod rest;
mod symbol;

pub use begin_rest::{begin_rest_count, begin_rest_moves};
pub use rest::{empty_rest_count, empty_rest_moves, rest_count, rest_moves};
