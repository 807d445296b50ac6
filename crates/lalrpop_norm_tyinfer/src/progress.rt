//! What the search for types is given, and how far it has come.

use crate::equations::Equation;
use crate::ground::RuleTypes;
use crate::names::Names;
use crate::waiting::Waiting;
use lalrpop_grammar_symbols::Atom;

/// The names of a grammar, and its equations.
#[derive(Clone, Copy)]
pub(crate) struct GrammarEquations<'n, 'g> {
    /// The names.
    pub(crate) names: &'n Names<'g>,
    /// The equations.
    pub(crate) equations: &'n [Equation<'g>],
}

/// How far the search for types has come.
#[derive(Drop)]
pub(crate) struct Progress<'g> {
    /// The types that are found.
    pub(crate) table: RuleTypes,
    /// The rules whose types are new, so that equations may wait for them.
    pub(crate) typed: Vec<&'g Atom>,
    /// Which equations wait for which rules.
    pub(crate) waiting: Waiting<'g>,
}
