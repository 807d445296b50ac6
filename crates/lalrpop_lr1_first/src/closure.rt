//! Closures of items, for both lookaheads.

ghost use Rattle.std.specs.Prelude.{◌≡◌, ◌≤◌, ◌+◌, ◌<◌, ◌∷◌, [], ℕ, true, None};
ghost use Rattle.std.specs.Prelude.{Some, IfOk, IsTrue, OnOk, filter_map, length, map, slice_get, slice_index_or};
ghost use Rattle.lalrpop_sets.specs.AscendingLists.{Ascends, has};
ghost use Rattle.lalrpop_lr1_first.specs.ClosureTables.{
  AreItems,
  HasEmptyClosure,
  ClosesSeed,
  HoldTokens,
  IsClosureTable,
  IsClosureTableOf,
  LookaheadsAreWithin,
  SeedsAll,
  SeedsOne,
  edge_of_rule,
  name_behind,
  started_items,
};
ghost use Rattle.lalrpop_lr1_first.specs.FirstNumbers.{name_count, table_end};
ghost use Rattle.lalrpop_lr1_first.specs.Flows.{MarksAreWithin};
ghost use Rattle.lalrpop_lr1_first.specs.NumberedGrammars.{HasItsTerminals};

use crate::closure_lookahead::ClosureLookahead;
use crate::first_of::{place_firsts, symbol_firsts};
use crate::flowing::{Edge, flow, join};
use crate::numbered::Numbered;
use crate::place::{NumberedRule, Place};
use lalrpop_grammar_repr::Grammar;
use lalrpop_sets::TokenSet;
use std::alloc::{AllocError, Global};

/// What closures of a grammar's items need, made once.
#[derive(Drop)]
pub struct Closures<'g> {
    pub(crate) numbered: Numbered<'g>,
    // The first set of what stands from each place on.
    pub(crate) firsts: Vec<TokenSet>,
    // From each rule's left side to the nonterminal with which its right side begins.
    pub(crate) edges: Vec<Edge>,
}

impl<'g> Closures<'g> {
    /// What closures of the grammar's items need. Its terminals are numbered by their places, and each terminal on a right side
    /// is one of them.
    pub fn new(alloc: Global, grammar: &'g Grammar) -> Result<Closures<'g>, AllocError>
        requires { HasItsTerminals grammar.now }
        ensures { IfOk result (λ closures. IsClosureTableOf grammar.now closures) }
    {
        let numbered = Numbered::new(alloc, grammar)?;
        let sets = symbol_firsts(alloc, &numbered)?;
        let firsts = place_firsts(alloc, &numbered, sets.as_slice())?;
        let edges = rule_edges(alloc, &numbered)?;
        Ok(Closures {
            numbered,
            firsts,
            edges,
        })
    }

    /// The grammar's table.
    pub fn table(&self) -> &Numbered<'g>
        ensures { result.now ≡ self.now.numbered }
    {
        &self.numbered
    }

    /// The first set of what stands from each place on, and of nothing behind the last place.
    pub fn firsts(&self) -> &[TokenSet]
        ensures { result.now ≡ self.now.firsts.items }
    {
        self.firsts.as_slice()
    }

    /// The items that the seed brings with it, each with the dot in front and with its lookahead, in order, each once:
    /// with the seed they are its closure. Items are told by their places.
    pub fn close<L: ClosureLookahead>(
        &self,
        alloc: Global,
        seed: &[(usize, L)],
    ) -> Result<Vec<(usize, L)>, AllocError>
        requires closures { IsClosureTable self.now }
        requires items { AreItems self.now.numbered seed.now }
        requires marks { LookaheadsAreWithin L.marks (table_end self.now.numbered) seed.now }
        ensures ascending { IfOk result (λ brought. Ascends (map (λ item. item.0) brought.items)) }
        ensures items { IfOk result (λ brought. AreItems self.now.numbered brought.items) }
        ensures tokens { HoldTokens L.marks (table_end self.now.numbered) seed.now
            → IfOk result (λ brought. HoldTokens L.marks (table_end self.now.numbered) brought.items) }
        ensures closes { IfOk result (λ brought. ClosesSeed L.marks L.firsts self.now.numbered seed.now brought.items) }
    {
        // most states of long chains of rules have nothing to bring, so they take no time by the number of names
        if has_empty_closure(&self.numbered, seed) {
            return Ok(Vec::new(alloc));
        }
        let mut slots = empty_slots(alloc, self.numbered.names.len())?;
        seed_slots(alloc, self, seed, &mut slots)?;
        flow(
            alloc,
            self.numbered.terminals,
            self.firsts.as_slice(),
            self.edges.as_slice(),
            &mut slots,
        )?;
        let brought = start_items(alloc, self.numbered.rules.as_slice(), slots.as_slice())?;
        Ok(brought)
    }
}

/// The number of the nonterminal at a place, if one stands there.
fn name_at(table: &Numbered<'_>, place: usize) -> Option<usize>
    ensures { result ≡ name_behind table.now place }
{
    match table.places.as_slice().get(place) {
        None => None,
        Some(found) => match *found {
            Place::End(_) => None,
            Place::Symbol(symbol) => {
                if symbol < table.names.len() {
                    Some(symbol)
                } else {
                    None
                }
            }
        },
    }
}

/// Whether no nonterminal stands behind the dot of any of the items.
fn has_empty_closure<L>(table: &Numbered<'_>, seed: &[(usize, L)]) -> bool
    ensures { IsTrue result → HasEmptyClosure table.now seed.now }
{
    for item in seed {
        if name_at(table, item.0).is_some() {
            return false;
        }
    }
    true
}

/// The edge of the rule, where its right side begins with a nonterminal.
fn rule_edge(table: &Numbered<'_>, rule: &NumberedRule) -> Option<Edge>
    ensures { result ≡ edge_of_rule table.now rule.now }
{
    match name_at(table, rule.start) {
        None => None,
        Some(name) => Some(Edge {
            from: rule.left,
            to: name,
            rest: rule.start + 1,
        }),
    }
}

/// The edges of the rules.
fn rule_edges(alloc: Global, table: &Numbered<'_>) -> Result<Vec<Edge>, AllocError>
    ensures { IfOk result (λ edges. edges.items ≡ filter_map (edge_of_rule table.now) table.now.rules.items) }
{
    let mut edges = Vec::new(alloc);
    for rule in table.rules.as_slice() {
        match rule_edge(table, rule) {
            None => {}
            Some(edge) => edges.push(edge)?,
        }
    }
    Ok(edges)
}

/// As many empty slots.
fn empty_slots<L: ClosureLookahead>(
    alloc: Global,
    count: usize,
) -> Result<Vec<Option<L>>, AllocError>
    ensures count { IfOk result (λ slots. length slots.items ≡ count) }
    ensures empty { IfOk result (λ slots. (s : ℕ) → slice_index_or slots.items s None ≡ None) }
{
    let mut slots = Vec::new(alloc);
    for _ in 0..count {
        slots.push(None)?;
    }
    Ok(slots)
}

/// Puts into the slots what the item brings, where a nonterminal stands behind its dot.
fn seed_slot<L: ClosureLookahead>(
    alloc: Global,
    closures: &Closures<'_>,
    place: usize,
    lookahead: &L,
    slots: &mut Vec<Option<L>>,
) -> Result<(), AllocError>
    requires closures { IsClosureTable closures.now }
    requires count { length slots.old.items ≡ name_count closures.now.numbered }
    requires marks { MarksAreWithin L.marks (table_end closures.now.numbered) slots.old.items }
    requires lookahead { (k : ℕ) → has (L.marks lookahead.now) k ≡ true → k ≤ table_end closures.now.numbered + 1 }
    ensures count { length slots.new.items ≡ length slots.old.items }
    ensures seeded { OnOk result (SeedsOne L.marks L.firsts closures.now.numbered closures.now.firsts.items (place, lookahead.now)
        slots.old.items slots.new.items) }
{
    match name_at(&closures.numbered, place) {
        None => Ok(()),
        Some(name) => {
            let first = &closures.firsts[place + 1];
            let came = L::through(alloc, closures.numbered.terminals, first, lookahead)?;
            join(&mut slots[name], came)?;
            Ok(())
        }
    }
}

/// Puts into empty slots what the items bring.
fn seed_slots<L: ClosureLookahead>(
    alloc: Global,
    closures: &Closures<'_>,
    seed: &[(usize, L)],
    slots: &mut Vec<Option<L>>,
) -> Result<(), AllocError>
    requires closures { IsClosureTable closures.now }
    requires count { length slots.old.items ≡ name_count closures.now.numbered }
    requires empty { (s : ℕ) → slice_index_or slots.old.items s None ≡ None }
    requires marks { LookaheadsAreWithin L.marks (table_end closures.now.numbered) seed.now }
    ensures { OnOk result (SeedsAll L.marks L.firsts closures.now.numbered closures.now.firsts.items seed.now slots.new.items) }
{
    for item in seed {
        seed_slot(alloc, closures, item.0, &item.1, slots)?;
    }
    Ok(())
}

/// The items with the dot in front of the rules whose left sides' slots have something.
fn start_items<L: ClosureLookahead>(
    alloc: Global,
    rules: &[NumberedRule],
    slots: &[Option<L>],
) -> Result<Vec<(usize, L)>, AllocError>
    requires { (r : ℕ) (rule : _) → slice_get rules.now r ≡ Some rule → rule.left < length slots.now }
    ensures { IfOk result (λ items. items.items ≡ started_items slots.now rules.now) }
{
    let mut items = Vec::new(alloc);
    for rule in rules {
        match &slots[rule.left] {
            None => {}
            Some(lookahead) => items.push((rule.start, lookahead.try_clone()?))?,
        }
    }
    Ok(items)
}
