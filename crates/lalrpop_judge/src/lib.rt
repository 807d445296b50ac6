//! Whether a written grammar admits a written tree with given tokens; and whether a certificate shows a conflict.
#![tactic(auto)]

mod asking;
pub mod certificates;
mod choosing;
mod compiled;
mod error;
mod judging;
mod leaves;
mod patterns;
mod walk;

pub use crate::certificates::{Certificate, Move, certificates_refute, check_conflict};
pub use error::JudgeError;
pub use judging::{judge, judge_tree};
