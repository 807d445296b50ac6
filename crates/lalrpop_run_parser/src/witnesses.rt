//! Certificates of the conflicts for which a prepared grammar has no parser.
//!
//! `Witnesses` in `specs/` says which they are.

mod witnessing;

pub use lalrpop_run_prepare::{Prepared, prepare};
pub use witnessing::{witness, witnesses};
