//! The levels of rules under their names.

use lalrpop_grammar_symbols::Atom;
use std::vec::Vec;

/// A level of a rule, and what the rule of that level is called.
#[derive(Drop)]
pub struct NamedLevel {
    /// The number of the level.
    pub level: u32,
    /// The name of the level's rule.
    pub name: Atom,
}

/// The levels of a rule, the loosest first; none, where the rule has no levels.
#[derive(Drop)]
pub struct RuleLevels {
    /// The levels.
    pub levels: Vec<NamedLevel>,
}
