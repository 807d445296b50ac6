//! What the items of states, and the productions that they bring, hand to slots.

ghost use Rattle.std.specs.Prelude.{◌≡◌, ◌↔◌, IsTrue, OnOk, drop, map};
ghost use Rattle.lalrpop_lr1_core.specs.Views.{production_symbol_view};
ghost use Rattle.lalrpop_lr1_first.specs.FirstSetsOf.{AreFirstSetsOf};
ghost use Rattle.lalrpop_lr1_first.specs.Listings.{lent};
ghost use Rattle.lalrpop_lr1_first.specs.NumberedGrammars.{table_productions};
ghost use Rattle.lalrpop_lr1_barren.specs.NamedLists.{AreListedByName};
ghost use Rattle.lalrpop_lr1_check_lookaheads.specs.Brought.{BeginBrings, BringsMark, ClosesMarks, ItemBrings};
ghost use Rattle.lalrpop_lr1_check_lookaheads.specs.KeyedSets.{OfSome, OfSomePlace};
ghost use Rattle.lalrpop_lr1_check_lookaheads.specs.LookaheadSlots.{AreSlots, GainsSlotMarks, slot_key};

use crate::lookaheads::rests::{name_at, tokens_of};
use crate::lookaheads::slots::{Slot, Slots};
use lalrpop_grammar_repr::{Grammar, Production, Symbol};
use lalrpop_grammar_symbols::NonterminalString;
use lalrpop_lr1_barren::reachable::NamedProductions;
use lalrpop_lr1_core::{Lr1Item, Lr1State};
use lalrpop_lr1_first::FirstSets;
use std::alloc::{AllocError, Global};

/// Propagates to the nonterminal behind the dot what can come first behind it.
fn seed_behind<'g>(
    alloc: Global,
    grammar: &Grammar,
    firsts: &FirstSets,
    state: usize,
    symbols: &'g [Symbol],
    dot: usize,
    slots: &mut Slots<'g>,
) -> Result<(), AllocError>
    requires firsts { AreFirstSetsOf grammar.now firsts.now }
    requires slots { AreSlots slots.old }
    ensures { OnOk result (GainsSlotMarks slots.old slots.new
        (BringsMark grammar.now state (drop dot (map production_symbol_view symbols.now)))) }
{
    match name_at(symbols, dot) {
        None => Ok(()),
        Some((name, rest)) => {
            let tokens = tokens_of(alloc, grammar, firsts, rest)?;
            slots.add(alloc, &grammar.terminals, Slot { state, name }, &tokens)?;
            Ok(())
        }
    }
}

/// Propagates what the items of a state bring.
fn seed_items<'g>(
    alloc: Global,
    grammar: &Grammar,
    firsts: &FirstSets,
    state: usize,
    items: &[Lr1Item<'g>],
    slots: &mut Slots<'g>,
) -> Result<(), AllocError>
    requires firsts { AreFirstSetsOf grammar.now firsts.now }
    requires slots { AreSlots slots.old }
    ensures { OnOk result (GainsSlotMarks slots.old slots.new (OfSome (ItemBrings grammar.now state) items.now)) }
{
    for item in items {
        let symbols = item.production.symbols.as_slice();
        seed_behind(alloc, grammar, firsts, state, symbols, item.index, slots)?;
    }
    Ok(())
}

/// Propagates what the items of all states bring.
pub(crate) fn seed_all_items<'g>(
    alloc: Global,
    grammar: &Grammar,
    firsts: &FirstSets,
    states: &[Lr1State<'g>],
    slots: &mut Slots<'g>,
) -> Result<(), AllocError>
    requires firsts { AreFirstSetsOf grammar.now firsts.now }
    requires slots { AreSlots slots.old }
    ensures { OnOk result (GainsSlotMarks slots.old slots.new
        (OfSomePlace (λ n state. OfSome (ItemBrings grammar.now n) state.items.vec) states.now)) }
{
    for state in 0..states.len() {
        let items = states[state].items.vec.as_slice();
        seed_items(alloc, grammar, firsts, state, items, slots)?;
    }
    Ok(())
}

/// Whether the production is of this name.
pub(crate) fn is_of(production: &Production, name: &NonterminalString) -> bool
    ensures { IsTrue result ↔ (production.now.nonterminal ≡ name.now) }
{
    production.nonterminal == *name
}

/// Propagates what the production, where it is of the slot's name, brings with its dot in front.
fn seed_begin<'g>(
    alloc: Global,
    grammar: &Grammar,
    firsts: &FirstSets,
    slot: Slot<'g>,
    production: &'g Production,
    slots: &mut Slots<'g>,
) -> Result<(), AllocError>
    requires firsts { AreFirstSetsOf grammar.now firsts.now }
    requires slots { AreSlots slots.old }
    ensures { OnOk result (GainsSlotMarks slots.old slots.new (BeginBrings grammar.now (slot_key slot.entry) production.now)) }
{
    if is_of(production, slot.name) {
        let symbols = production.symbols.as_slice();
        seed_behind(alloc, grammar, firsts, slot.state, symbols, 0, slots)?;
    }
    Ok(())
}

/// Propagates what the productions of the slot's name bring with their dots in front.
fn seed_begins<'g>(
    alloc: Global,
    grammar: &Grammar,
    firsts: &FirstSets,
    slot: Slot<'g>,
    productions: &[&'g Production],
    slots: &mut Slots<'g>,
) -> Result<(), AllocError>
    requires firsts { AreFirstSetsOf grammar.now firsts.now }
    requires slots { AreSlots slots.old }
    ensures { OnOk result (GainsSlotMarks slots.old slots.new
        (OfSome (BeginBrings grammar.now (slot_key slot.entry)) (lent productions.now))) }
{
    for production in productions {
        seed_begin(alloc, grammar, firsts, slot, *production, slots)?;
    }
    Ok(())
}

/// Propagates what the productions of the names of all slots bring with their dots in front, until nothing comes.
pub(crate) fn close_slots<'g>(
    alloc: Global,
    grammar: &Grammar,
    firsts: &FirstSets,
    named: &NamedProductions<'_, 'g>,
    slots: &mut Slots<'g>,
) -> Result<(), AllocError>
    requires firsts { AreFirstSetsOf grammar.now firsts.now }
    requires named { AreListedByName named.now }
    requires slots { AreSlots slots.old }
    ensures { OnOk result (ClosesMarks grammar.now (table_productions named.now.table.now) slots.old slots.new) }
{
    let mut number = 0;
    while let Some(slot) = slots.slot_at(number) {
        let productions = named.productions_of(slot.name);
        seed_begins(alloc, grammar, firsts, slot, productions, slots)?;
        number += 1;
    }
    Ok(())
}
