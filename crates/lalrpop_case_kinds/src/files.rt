//! Files of cases: what a kind of cases has, what a case says, answers as values, and how many of a file's cases pass.

mod cases;
pub mod fields;
mod tally;
pub mod values;

pub use cases::{TableCase, compare, run_cases, tell};
pub use tally::Tally;
