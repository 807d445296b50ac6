//! The lowered grammar as a whole.

ghost use Rattle.std.specs.Prelude.{◌≡◌, ◌↔◌, ◌<◌, IfOk, IsTrue, Some, length, option_map, slice_get};
ghost use Rattle.lalrpop_grammar_repr.specs.Productions.{AreFreeOf, IsAlone, IsFreeOf, productions_of};
ghost use Rattle.lalrpop_grammar_repr.specs.declared.production.Symbol.TheVariants as symbols;

use crate::action::{ActionFn, ActionFnDefn};
use crate::algorithm::Algorithm;
use crate::map::Map;
use crate::production::{NonterminalData, Production, Symbol};
use crate::terminal_set::TerminalSet;
use crate::types::Types;
use lalrpop_grammar::{Atom, List, NonterminalString};
use std::alloc::{AllocError, Global};

/// A grammar of plain productions.
#[derive(Debug)]
pub struct Grammar {
    /// What no written name begins with.
    pub prefix: Atom,
    /// Its terminals.
    pub terminals: TerminalSet,
    /// Its nonterminals, by their names.
    pub nonterminals: Map<NonterminalString, NonterminalData>,
    /// The nonterminal that is added for each public rule, by the rule's name.
    pub start_nonterminals: Map<NonterminalString, NonterminalString>,
    /// What each action does, by its number.
    pub action_fn_defns: List<ActionFnDefn>,
    /// The types of its terminals and nonterminals.
    pub types: Types,
    /// How tables are built.
    pub algorithm: Algorithm,
}

impl Drop for Grammar {
    /// Drops what it holds: where it is owned, that is one call.
    fn drop(self) {
        let Grammar {
            prefix: _prefix,
            terminals: _terminals,
            nonterminals: _nonterminals,
            start_nonterminals: _start_nonterminals,
            action_fn_defns: _action_fn_defns,
            types: _types,
            algorithm: _,
        } = self;
    }
}

impl Grammar {
    /// The productions of a nonterminal, in order; none where the grammar has no such nonterminal.
    pub fn productions_for(&self, nonterminal: &NonterminalString) -> &[Production]
        ensures { result.now ≡ productions_of self.now.nonterminals nonterminal.now }
    {
        match self.nonterminals.get(nonterminal) {
            None => &[],
            Some(data) => data.productions.as_slice(),
        }
    }

    /// Whether the nonterminal stands on no right side.
    pub fn start_is_alone(&self, nonterminal: &NonterminalString) -> bool
        ensures { IsTrue result ↔ IsAlone nonterminal.now self.now.nonterminals }
    {
        for (_, data) in self.nonterminals.iter() {
            if !are_free_of(data.productions.as_slice(), nonterminal) {
                return false;
            }
        }
        true
    }

    /// Whether the action may fail. The grammar has it.
    pub fn action_is_fallible(&self, action: ActionFn) -> bool
        requires { action.0 < length self.now.action_fn_defns }
        ensures { option_map (λ action. action.fallible) (slice_get self.now.action_fn_defns action.0) ≡ Some result }
    {
        self.action_fn_defns.as_slice()[action.index()].fallible
    }

    /// A copy that equals it.
    pub fn try_clone(&self, alloc: Global) -> Result<Grammar, AllocError>
        ensures { IfOk result (λ copy. copy ≡ self.now) }
    {
        let prefix = self.prefix.try_clone()?;
        let action_fn_defns = clone_actions(alloc, self.action_fn_defns.as_slice())?;
        let nonterminals = self.nonterminals.try_clone(alloc)?;
        let start_nonterminals = self.start_nonterminals.try_clone(alloc)?;
        let terminals = self.terminals.try_clone(alloc)?;
        Ok(Grammar {
            prefix,
            terminals,
            nonterminals,
            start_nonterminals,
            action_fn_defns,
            types: self.types.try_clone(alloc)?,
            algorithm: self.algorithm,
        })
    }
}

/// Whether none of the productions has the nonterminal on its right side.
fn are_free_of(productions: &[Production], nonterminal: &NonterminalString) -> bool
    ensures { IsTrue result ↔ AreFreeOf nonterminal.now productions.now }
{
    for production in productions {
        if !is_free_of(production.symbols.as_slice(), nonterminal) {
            return false;
        }
    }
    true
}

/// Whether the nonterminal isn't among the symbols.
fn is_free_of(symbols: &[Symbol], nonterminal: &NonterminalString) -> bool
    ensures { IsTrue result ↔ IsFreeOf nonterminal.now symbols.now }
{
    for symbol in symbols {
        if is_named(symbol, nonterminal) {
            return false;
        }
    }
    true
}

/// Whether the symbol is this nonterminal.
fn is_named(symbol: &Symbol, nonterminal: &NonterminalString) -> bool
    ensures { IsTrue result ↔ (symbol.now ≡ symbols.Nonterminal nonterminal.now) }
{
    match symbol {
        Symbol::Nonterminal(name) => name == nonterminal,
        Symbol::Terminal(_) => false,
    }
}

fn clone_actions(alloc: Global, actions: &[ActionFnDefn]) -> Result<List<ActionFnDefn>, AllocError>
    ensures { IfOk result (λ copy. copy ≡ actions.now) }
{
    let mut copy = List::new(alloc);
    for action in actions {
        copy.push(action.try_clone(alloc)?)?;
    }
    Ok(copy)
}
