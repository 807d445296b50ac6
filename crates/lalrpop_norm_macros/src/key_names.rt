//! The names that keys get once macros are expanded.
//!
//! A rule without parameters keeps its name. Each other key is called by its text, which prints as a symbol does: `Comma<Id>`.
//! Where the text is taken, by a rule, a macro or a key before it, a number follows behind a tilde: `E1<"a">~2`.

mod laws;
mod names;

pub use laws::{grammars_are_nameable, key_names_name_expansions};
pub use names::key_names;
