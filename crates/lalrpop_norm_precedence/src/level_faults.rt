//! What may be wrong with the levels of rules, and which rules have levels: for the pass of the normalizer that gives each level
//! a rule of its own.

mod faults;

pub use faults::{has_prec_attr, level_fault};
