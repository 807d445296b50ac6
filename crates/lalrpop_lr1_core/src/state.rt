//! States: items, and what is done there.

ghost use Rattle.std.specs.Prelude.{◌≡◌, [], IfOk, slice_get, unwrap_or};
ghost use Rattle.std.specs.List.{list_all};
ghost use Rattle.std.specs.Option.{option_copied};
ghost use Rattle.std.specs.Str.{bytes_eq};
ghost use Rattle.lalrpop_lr1_core.specs.Dots.{
  first_shortest,
  last_longest,
  moved_names,
  moved_prefixes,
  moved_rests,
  one_name,
  prefixes,
};

use crate::item::Item;
use crate::lookahead::Lookahead;
use crate::shortest::{list_or_nothing, longer, shorter_if_moved};
use crate::state_index::StateIndex;
use lalrpop_grammar_repr::{Map, Production, Symbol};
use lalrpop_grammar_symbols::{List, NonterminalString, TerminalString};
use lalrpop_sets::{Nil, TokenSet};
use std::alloc::{AllocError, Global};

/// The items of a state.
#[derive(PartialEq, Eq, PartialOrd, Ord, Hash)]
#[derive_where(Debug; L: Lookahead)]
pub struct Items<'g, L> {
    /// The items, in order.
    pub vec: List<Item<'g, L>>,
}

impl<'g, L: Drop> Drop for Items<'g, L> {
    /// Drops what it holds: where it is owned, that is one call.
    fn drop(self) {
        let Items { vec: _vec } = self;
    }
}

/// The items of a state without lookaheads.
pub type Lr0Items<'g> = Items<'g, Nil>;

/// The items of a state with lookaheads.
pub type Lr1Items<'g> = Items<'g, TokenSet>;

/// A state: its items, and what is done there.
#[derive_where(Debug; L: Lookahead)]
pub struct State<'g, L> {
    /// Its number.
    pub index: StateIndex,
    /// Its items.
    pub items: Items<'g, L>,
    /// Where the terminals lead.
    pub shifts: Map<TerminalString, StateIndex>,
    /// By what it reduces, each with what may follow.
    pub reductions: List<(L, &'g Production)>,
    /// Where the nonterminals lead.
    pub gotos: Map<NonterminalString, StateIndex>,
}

impl<'g, L: Drop> Drop for State<'g, L> {
    /// Drops what it holds: where it is owned, that is one call.
    fn drop(self) {
        let State {
            index: _index,
            items: _items,
            shifts: _shifts,
            reductions: _reductions,
            gotos: _gotos,
        } = self;
    }
}

/// A state without lookaheads.
pub type Lr0State<'g> = State<'g, Nil>;

/// A state with lookaheads.
pub type Lr1State<'g> = State<'g, TokenSet>;

/// Whether the dot of each of the items is in front, or its production is of the nonterminal.
fn all_produce<L>(items: &[Item<'_, L>], name: &NonterminalString) -> bool
    ensures { result ≡ list_all (λ own. bytes_eq name.now.0 own.0) (moved_names items.now) }
{
    for item in items {
        if item.index > 0 && !is_of(item.production, name) {
            return false;
        }
    }
    true
}

/// Whether the production is of the nonterminal.
fn is_of(production: &Production, name: &NonterminalString) -> bool
    ensures { result ≡ bytes_eq name.now.0 production.now.nonterminal.0 }
{
    name.0.as_str() == production.nonterminal.0.as_str()
}

impl<'g, L> State<'g, L> {
    /// The longest prefix of its items: what stands before the dot. Nothing where it has no items.
    pub fn max_prefix(&self) -> &'g [Symbol]
        ensures { result.now ≡ unwrap_or (last_longest (prefixes self.now.items.vec)) [] }
    {
        let mut longest: Option<&'g [Symbol]> = None;
        for item in self.items.vec.as_slice() {
            longest = longer(longest, item.prefix());
        }
        list_or_nothing(longest)
    }

    /// The first shortest prefix of its items with the dot not in front. Nothing where there are none.
    pub fn will_pop(&self) -> &'g [Symbol]
        ensures { result.now ≡ unwrap_or (first_shortest (moved_prefixes self.now.items.vec)) [] }
    {
        let mut shortest: Option<&'g [Symbol]> = None;
        for item in self.items.vec.as_slice() {
            shortest = shorter_if_moved(shortest, item.index, item.prefix());
        }
        list_or_nothing(shortest)
    }

    /// The first shortest rest behind the dot, of its items with the dot not in front. Nothing where there are none.
    pub fn will_push(&self) -> &'g [Symbol]
        ensures { result.now ≡ unwrap_or (first_shortest (moved_rests self.now.items.vec)) [] }
    {
        let mut shortest: Option<&'g [Symbol]> = None;
        for item in self.items.vec.as_slice() {
            shortest = shorter_if_moved(shortest, item.index, item.rest());
        }
        list_or_nothing(shortest)
    }

    /// The nonterminal of its items with the dot not in front, where there are such items and they have one.
    pub fn will_produce(&self) -> Option<&'g NonterminalString>
        ensures { option_copied result ≡ one_name (moved_names self.now.items.vec) }
    {
        let name = first_produced(self.items.vec.as_slice())?;
        if all_produce(self.items.vec.as_slice(), name) {
            Some(name)
        } else {
            None
        }
    }
}

/// The nonterminal of the first of the items with the dot not in front.
fn first_produced<'g, L>(items: &[Item<'g, L>]) -> Option<&'g NonterminalString>
    ensures { option_copied result ≡ slice_get (moved_names items.now) 0 }
{
    for item in items {
        if item.index > 0 {
            return Some(&item.production.nonterminal);
        }
    }
    None
}

impl<'g, L: Lookahead> Items<'g, L> {
    /// A copy that equals it.
    pub fn try_clone(&self, alloc: Global) -> Result<Items<'g, L>, AllocError>
        ensures { IfOk result (λ copy. copy ≡ self.now) }
    {
        let mut copy = List::new(alloc);
        for item in self.vec.as_slice() {
            copy.push(item.try_clone()?)?;
        }
        Ok(Items { vec: copy })
    }
}

/// Copies of the reductions, in order.
fn clone_reductions<'g, L: Lookahead>(
    alloc: Global,
    reductions: &[(L, &'g Production)],
) -> Result<List<(L, &'g Production)>, AllocError>
    ensures { IfOk result (λ copy. copy ≡ reductions.now) }
{
    let mut copy = List::new(alloc);
    for reduction in reductions {
        copy.push((reduction.0.try_clone()?, reduction.1))?;
    }
    Ok(copy)
}

impl<'g, L: Lookahead> State<'g, L> {
    /// A copy that equals it.
    pub fn try_clone(&self, alloc: Global) -> Result<State<'g, L>, AllocError>
        ensures { IfOk result (λ copy. copy ≡ self.now) }
    {
        Ok(State {
            index: self.index,
            items: self.items.try_clone(alloc)?,
            shifts: self.shifts.try_clone(alloc)?,
            reductions: clone_reductions(alloc, self.reductions.as_slice())?,
            gotos: self.gotos.try_clone(alloc)?,
        })
    }
}
