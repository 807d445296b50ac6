//! From a written grammar to what a parser is made of: its plain productions with the inlined rules inlined, and the automaton of its
//! tokens; or the reason for which it is refused.
//!
//! `preparing` asks for the refusals in their order, `inlining` puts inlined rules into the productions, `expanding` sees whether the
//! start may be parsed from, and `prepared` is what comes out.
#![tactic(auto)]

pub mod answer_laws;
mod expanding;
mod inlining;
pub mod label_laws;
mod prepared;
mod preparing;
pub mod refusals;
pub mod tokens;

pub use prepared::Prepared;
pub use preparing::prepare;
