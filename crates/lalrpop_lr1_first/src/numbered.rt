//! The table of numbers of a grammar: what tables of states are built from.

ghost use Rattle.std.specs.Prelude.{◌≡◌, IfOk};
ghost use Rattle.lalrpop_lr1_first.specs.NumberedGrammars.{HasItsTerminals, IsNumberTableOf};

use crate::laying::lay_rules;
use crate::listing::{list_productions, names_in, productions_in};
use crate::names::NumberedNames;
use crate::place::{NumberedRule, Place};
use lalrpop_grammar_repr::{Grammar, Production, TerminalSet};
use lalrpop_grammar_symbols::NonterminalString;
use std::alloc::{AllocError, Global};

/// A grammar by numbers. Productions and names ascend, each once; right sides are laid one behind the other, each with its
/// end, so that each item has a place: that of the symbol behind its dot.
#[derive(Drop)]
pub struct Numbered<'g> {
    pub(crate) names: Vec<&'g NonterminalString>,
    pub(crate) terminals: &'g TerminalSet,
    pub(crate) productions: Vec<&'g Production>,
    pub(crate) rules: Vec<NumberedRule>,
    pub(crate) places: Vec<Place>,
}

impl<'g> Numbered<'g> {
    /// The table of the grammar, whose terminals are numbered by their places.
    pub fn new(alloc: Global, grammar: &'g Grammar) -> Result<Numbered<'g>, AllocError>
        requires { HasItsTerminals grammar.now }
        ensures { IfOk result (λ table. IsNumberTableOf grammar.now table) }
    {
        let productions = list_productions(alloc, &productions_in(alloc, grammar)?)?;
        let names = NumberedNames::new(alloc, &names_in(alloc, productions.as_slice())?)?;
        let mut rules = Vec::new(alloc);
        let mut places = Vec::new(alloc);
        lay_rules(
            &names,
            &grammar.terminals,
            productions.as_slice(),
            &mut rules,
            &mut places,
        )?;
        Ok(Numbered {
            names: names.listed,
            terminals: &grammar.terminals,
            productions,
            rules,
            places,
        })
    }

    /// The names, in order: a name's number is its place.
    pub fn names(&self) -> &[&'g NonterminalString]
        ensures { result.now ≡ self.now.names.items }
    {
        self.names.as_slice()
    }

    /// The grammar's terminals.
    pub fn terminals(&self) -> &'g TerminalSet
        ensures { result.now ≡ self.now.terminals.now }
    {
        self.terminals
    }

    /// The productions, in order.
    pub fn productions(&self) -> &[&'g Production]
        ensures { result.now ≡ self.now.productions.items }
    {
        self.productions.as_slice()
    }

    /// The productions by numbers, in the same order.
    pub fn rules(&self) -> &[NumberedRule]
        ensures { result.now ≡ self.now.rules.items }
    {
        self.rules.as_slice()
    }

    /// What stands at each place.
    pub fn places(&self) -> &[Place]
        ensures { result.now ≡ self.now.places.items }
    {
        self.places.as_slice()
    }
}
