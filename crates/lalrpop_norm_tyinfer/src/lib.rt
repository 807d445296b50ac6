//! The pass that infers types: each rule of an expanded grammar has the type that it declares, or the one that its alternatives
//! without user code give.
//!
//! Equations of rules stand in `equations`; `ground` has the types that they give by a table of rules' types, and `search` fills
//! the table: an equation waits for one rule without a type at a time.
#![tactic(auto)]

mod equations;
mod ground;
mod infer;
mod names;
mod progress;
mod same;
mod search;
mod terminals;
mod untyped;
mod waiting;

pub use infer::infer_types;
