//! Items: productions with a dot, and with what may follow.

ghost use Rattle.std.specs.Prelude.{◌≡◌, ◌↔◌, ◌+◌, ◌<◌, IfOk, IsTrue, Some, drop, length, take};
ghost use Rattle.std.specs.Option.{option_copied};
ghost use Rattle.lalrpop_grammar_repr.specs.declared.production.Symbol.TheVariants as symbols;
ghost use Rattle.lalrpop_lr1_core.specs.Dots.{at_dot, before_dot, behind_cursor, behind_dot};
ghost use Rattle.lalrpop_lr1_core.specs.Dots.{lent_item, lent_place, lent_symbols, symbol_and_item, symbol_and_place, symbol_and_rest};

use crate::lookahead::Lookahead;
use crate::symbol_sets::SymbolSets;
use lalrpop_grammar_repr::{Production, Symbol};
use lalrpop_grammar_symbols::NonterminalString;
use lalrpop_sets::{Nil, TokenSet};
use std::alloc::AllocError;

/// A production with a dot in its right side, and what may follow it. Items are ordered by their fields, in this order.
#[derive(Clone, Copy, PartialEq, Eq, PartialOrd, Ord, Hash, Drop)]
pub struct Item<'g, L> {
    /// The production.
    pub production: &'g Production,
    /// How many of its symbols stand before the dot.
    pub index: usize,
    /// What may follow.
    pub lookahead: L,
}

/// An item without a lookahead.
pub type Lr0Item<'g> = Item<'g, Nil>;

/// An item with a set of tokens that may follow.
pub type Lr1Item<'g> = Item<'g, TokenSet>;

/// The first symbols, as many as stand before a dot; all of them where the dot is past the end.
pub(crate) fn symbols_before(symbols: &[Symbol], dot: usize) -> &[Symbol]
    ensures { result.now ≡ take dot symbols.now }
{
    if dot < symbols.len() {
        &symbols[..dot]
    } else {
        symbols
    }
}

/// The symbols from a dot on; none where the dot is past the end.
pub(crate) fn symbols_behind(symbols: &[Symbol], dot: usize) -> &[Symbol]
    ensures { result.now ≡ drop dot symbols.now }
{
    if dot < symbols.len() {
        &symbols[dot..]
    } else {
        &[]
    }
}

/// The symbols behind the one that is behind a dot.
fn symbols_behind_cursor(symbols: &[Symbol], dot: usize) -> &[Symbol]
    ensures { result.now ≡ drop (dot + 1) symbols.now }
{
    if dot < symbols.len() {
        &symbols[dot + 1..]
    } else {
        &[]
    }
}

/// The symbol behind a dot, with the place behind it.
fn symbol_at(symbols: &[Symbol], dot: usize) -> Option<(&Symbol, usize)>
    ensures { lent_place result ≡ symbol_and_place symbols.now dot }
{
    if dot < symbols.len() {
        Some((&symbols[dot], dot + 1))
    } else {
        None
    }
}

/// Whether the symbol is this nonterminal.
fn is_nonterminal(symbol: &Symbol, name: &NonterminalString) -> bool
    ensures { IsTrue result ↔ (symbol.now ≡ symbols.Nonterminal name.now) }
{
    match symbol {
        Symbol::Nonterminal(own) => own == name,
        Symbol::Terminal(_) => false,
    }
}

impl<'g> Item<'g, Nil> {
    /// An item without a lookahead.
    pub fn lr0(production: &'g Production, index: usize) -> Item<'g, Nil>
        ensures production { result.production ≡ production.entry }
        ensures index { result.index ≡ index }
    {
        Item {
            production,
            index,
            lookahead: Nil,
        }
    }
}

impl<'g, L> Item<'g, L> {
    /// The same production and dot, with this lookahead.
    pub fn with_lookahead<M>(&self, lookahead: M) -> Item<'g, M>
        ensures production { result.production ≡ self.now.production }
        ensures index { result.index ≡ self.now.index }
        ensures lookahead { result.lookahead ≡ lookahead }
    {
        Item {
            production: self.production,
            index: self.index,
            lookahead,
        }
    }

    /// The same production and dot, without a lookahead.
    pub fn to_lr0(&self) -> Item<'g, Nil>
        ensures production { result.production ≡ self.now.production }
        ensures index { result.index ≡ self.now.index }
    {
        self.with_lookahead(Nil)
    }

    /// The symbols before the dot; all of them where the dot is past the end.
    pub fn prefix(&self) -> &'g [Symbol]
        ensures { result.now ≡ before_dot self.now }
    {
        symbols_before(self.production.symbols.as_slice(), self.index)
    }

    /// The symbols behind the dot; none where the dot is past the end.
    pub fn rest(&self) -> &'g [Symbol]
        ensures { result.now ≡ behind_dot self.now }
    {
        symbols_behind(self.production.symbols.as_slice(), self.index)
    }

    /// The right side, parted at the dot.
    pub fn symbol_sets(&self) -> SymbolSets<'g>
        ensures prefix { result.prefix.now ≡ before_dot self.now }
        ensures cursor { option_copied result.cursor ≡ at_dot self.now }
        ensures suffix { result.suffix.now ≡ behind_cursor self.now }
    {
        let symbols = self.production.symbols.as_slice();
        SymbolSets {
            prefix: symbols_before(symbols, self.index),
            cursor: symbols.get(self.index),
            suffix: symbols_behind_cursor(symbols, self.index),
        }
    }

    /// Whether a symbol stands behind the dot.
    pub fn can_shift(&self) -> bool
        ensures { IsTrue result ↔ (self.now.index < length self.now.production.now.symbols) }
    {
        self.index < self.production.symbols.len()
    }

    /// Whether this nonterminal stands behind the dot.
    pub fn can_shift_nonterminal(&self, name: &NonterminalString) -> bool
        ensures { IsTrue result ↔ (at_dot self.now ≡ Some (symbols.Nonterminal name.now)) }
    {
        match self.production.symbols.as_slice().get(self.index) {
            Some(symbol) => is_nonterminal(symbol, name),
            None => false,
        }
    }

    /// Whether the dot stands at the end.
    pub fn can_reduce(&self) -> bool
        ensures { IsTrue result ↔ (self.now.index ≡ length self.now.production.now.symbols) }
    {
        self.index == self.production.symbols.len()
    }

    /// The symbol behind the dot, with those behind it; none where no symbol stands there.
    pub fn shift_symbol(&self) -> Option<(&'g Symbol, &'g [Symbol])>
        ensures { lent_symbols result ≡ symbol_and_rest self.now }
    {
        let symbols = self.production.symbols.as_slice();
        match symbols.get(self.index) {
            Some(symbol) => Some((symbol, symbols_behind_cursor(symbols, self.index))),
            None => None,
        }
    }
}

impl<'g, L: Lookahead> Item<'g, L> {
    /// The symbol behind the dot, with the item in which the dot stands behind it; none where no symbol stands there.
    pub fn shifted_item(&self) -> Result<Option<(&'g Symbol, Item<'g, L>)>, AllocError>
        ensures { IfOk result (λ shifted. lent_item shifted ≡ symbol_and_item self.now) }
    {
        match symbol_at(self.production.symbols.as_slice(), self.index) {
            Some((symbol, index)) => Ok(Some((symbol, self.with_dot(index)?))),
            None => Ok(None),
        }
    }

    /// The item with its dot in another place.
    fn with_dot(&self, dot: usize) -> Result<Item<'g, L>, AllocError>
        ensures { IfOk result (λ item. item ≡ record self.now { index = dot }) }
    {
        Ok(Item {
            production: self.production,
            index: dot,
            lookahead: self.lookahead.try_clone()?,
        })
    }

    /// A copy that equals it.
    pub fn try_clone(&self) -> Result<Item<'g, L>, AllocError>
        ensures { IfOk result (λ copy. copy ≡ self.now) }
    {
        Ok(Item {
            production: self.production,
            index: self.index,
            lookahead: self.lookahead.try_clone()?,
        })
    }
}
