//! The rules of keys: once macros are expanded, each call, repeat, group and lookaround has a rule of its own, under its name.

mod added;
mod alternatives;
mod grammar;
mod keys;
mod laws;
mod rules;
mod types;

pub use grammar::with_rules;
pub use keys::key_rules;
pub use laws::key_rules_expand;
