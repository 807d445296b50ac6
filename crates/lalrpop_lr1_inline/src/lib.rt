//! Inlining: each place of an inlined nonterminal in a right side is replaced by each of its productions.
//!
//! `inline` finds the order, counts the numbers that all steps hand out (`count`), and takes the steps one after another (`steps`,
//! each by `step`). What it answers is told by the steps.
#![tactic(auto)]

mod count;
mod fault;
mod grammar;
pub mod laws;
mod made;
mod named;
mod order;
mod records;
mod rules;
mod step;
mod steps;

pub use fault::InlineFault;
pub use grammar::inline;
pub use order::inline_order;
