//! Productions and their symbols.

ghost use Rattle.std.specs.Prelude.{◌≡◌, IfOk};

use crate::action::ActionFn;
use lalrpop_grammar::{Attribute, List, NonterminalString, Span, TerminalString};
use std::alloc::{AllocError, Global};

/// A symbol of a right side.
#[derive(Debug, PartialEq, Eq, PartialOrd, Ord, Hash, Drop)]
pub enum Symbol {
    /// A nonterminal, by its name.
    Nonterminal(NonterminalString),
    /// A terminal.
    Terminal(TerminalString),
}

/// A production. Productions are ordered by their fields, in this order.
#[derive(Debug, PartialEq, Eq, PartialOrd, Ord, Hash)]
pub struct Production {
    /// Its left side.
    pub nonterminal: NonterminalString,
    /// Its right side.
    pub symbols: List<Symbol>,
    /// The number of its action.
    pub action: ActionFn,
    /// Where it is written.
    pub span: Span,
}

impl Drop for Production {
    /// Drops what it holds: where it is owned, that is one call.
    fn drop(self) {
        let Production {
            nonterminal: _nonterminal,
            symbols: _symbols,
            action: _action,
            span: _,
        } = self;
    }
}

/// A nonterminal with its productions.
#[derive(Debug, PartialEq, Eq)]
pub struct NonterminalData {
    /// Its name.
    pub name: NonterminalString,
    /// The attributes of its rule.
    pub attributes: List<Attribute>,
    /// Where its rule is written.
    pub span: Span,
    /// Its productions, in order.
    pub productions: List<Production>,
}

impl Drop for NonterminalData {
    /// Drops what it holds: where it is owned, that is one call.
    fn drop(self) {
        let NonterminalData {
            name: _name,
            attributes: _attributes,
            span: _,
            productions: _productions,
        } = self;
    }
}

impl Symbol {
    /// A copy that equals it.
    pub fn try_clone(&self) -> Result<Symbol, AllocError>
        ensures { IfOk result (λ copy. copy ≡ self.now) }
    {
        match self {
            Symbol::Nonterminal(name) => Ok(Symbol::Nonterminal(name.try_clone()?)),
            Symbol::Terminal(terminal) => Ok(Symbol::Terminal(terminal.try_clone()?)),
        }
    }
}

impl Production {
    /// A copy that equals it.
    pub fn try_clone(&self, alloc: Global) -> Result<Production, AllocError>
        ensures { IfOk result (λ copy. copy ≡ self.now) }
    {
        Ok(Production {
            nonterminal: self.nonterminal.try_clone()?,
            symbols: clone_symbols(alloc, self.symbols.as_slice())?,
            action: self.action,
            span: self.span,
        })
    }
}

impl NonterminalData {
    /// A copy that equals it.
    pub fn try_clone(&self, alloc: Global) -> Result<NonterminalData, AllocError>
        ensures { IfOk result (λ copy. copy ≡ self.now) }
    {
        Ok(NonterminalData {
            name: self.name.try_clone()?,
            attributes: clone_attributes(alloc, self.attributes.as_slice())?,
            span: self.span,
            productions: clone_productions(alloc, self.productions.as_slice())?,
        })
    }
}

/// Copies of the symbols, in order.
pub(crate) fn clone_symbols(alloc: Global, symbols: &[Symbol]) -> Result<List<Symbol>, AllocError>
    ensures { IfOk result (λ copy. copy ≡ symbols.now) }
{
    let mut copy = List::new(alloc);
    for symbol in symbols {
        copy.push(symbol.try_clone()?)?;
    }
    Ok(copy)
}

fn clone_attributes(alloc: Global, attributes: &[Attribute]) -> Result<List<Attribute>, AllocError>
    ensures { IfOk result (λ copy. copy ≡ attributes.now) }
{
    let mut copy = List::new(alloc);
    for attribute in attributes {
        copy.push(attribute.try_clone(alloc)?)?;
    }
    Ok(copy)
}

fn clone_productions(
    alloc: Global,
    productions: &[Production],
) -> Result<List<Production>, AllocError>
    ensures { IfOk result (λ copy. copy ≡ productions.now) }
{
    let mut copy = List::new(alloc);
    for production in productions {
        copy.push(production.try_clone(alloc)?)?;
    }
    Ok(copy)
}
