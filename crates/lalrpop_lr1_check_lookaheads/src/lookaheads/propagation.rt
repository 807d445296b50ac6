//! Along which edges slots propagate what is propagated to them.

ghost use Rattle.std.specs.Prelude.{◌≡◌, ◌≤◌, IfOk, OnOk, length, List, ℕ};
ghost use Rattle.lalrpop_lr1_theory.specs.States.{LookaheadSet};
ghost use Rattle.lalrpop_lr1_first.specs.FirstSetsOf.{AreFirstSetsOf};
ghost use Rattle.lalrpop_lr1_first.specs.Listings.{lent};
ghost use Rattle.lalrpop_lr1_first.specs.NumberedGrammars.{table_productions};
ghost use Rattle.lalrpop_lr1_barren.specs.NamedLists.{AreListedByName};
ghost use Rattle.lalrpop_lr1_check_lookaheads.specs.PropagationEdges.{ArePropagationEdges, GainsEdges, PropagatesAtDot, PropagatesBelow, PropagatesBy, PropagatesBySome};
ghost use Rattle.lalrpop_lr1_check_lookaheads.specs.LookaheadSlots.{AreSlots, slot_key};

use crate::lookaheads::rests::{is_nothing, name_at};
use crate::lookaheads::seeds::is_of;
use crate::lookaheads::slots::{Slot, Slots};
use crate::lookaheads::walking::walk;
use lalrpop_grammar_repr::{Grammar, Production, Symbol};
use lalrpop_lr1_barren::reachable::NamedProductions;
use lalrpop_lr1_core::Lr1State;
use lalrpop_lr1_first::{Edge, FirstSets};
use std::alloc::{AllocError, Global};

/// Adds the edge from the slot with this number to the other slot, which is put in if it isn't there.
fn add_edge<'g>(
    alloc: Global,
    grammar: &Grammar,
    from: usize,
    to: Slot<'g>,
    slots: &mut Slots<'g>,
    edges: &mut Vec<Edge>,
) -> Result<(), AllocError>
    requires { AreSlots slots.old }
    ensures { OnOk result (GainsEdges from slots.old edges.old.items slots.new edges.new.items (λ key. key ≡ slot_key to.entry)) }
{
    let number = slots.number_of(alloc, &grammar.terminals, to)?;
    edges.push(Edge {
        from,
        to: number,
        rest: 0,
    })?;
    Ok(())
}

/// Adds the edge to the nonterminal behind the dot, where what stands behind it derives nothing and the symbols before it lead to
/// a state.
fn propagate_at<'g>(
    alloc: Global,
    grammar: &Grammar,
    firsts: &FirstSets,
    states: &[Lr1State<'_>],
    from: usize,
    state: usize,
    symbols: &'g [Symbol],
    dot: usize,
    slots: &mut Slots<'g>,
    edges: &mut Vec<Edge>,
) -> Result<(), AllocError>
    requires firsts { AreFirstSetsOf grammar.now firsts.now }
    requires slots { AreSlots slots.old }
    requires dot { dot ≤ length symbols.now }
    ensures { OnOk result ((look : List ℕ → LookaheadSet) → GainsEdges from slots.old edges.old.items slots.new edges.new.items
        (PropagatesAtDot grammar.now look states.now state symbols.now dot)) }
{
    match name_at(symbols, dot) {
        None => Ok(()),
        Some((name, rest)) => {
            let ends = is_nothing(alloc, grammar, firsts, rest)?;
            if !ends {
                return Ok(());
            }
            match walk(states, state, &symbols[..dot]) {
                None => Ok(()),
                Some(state) => {
                    add_edge(alloc, grammar, from, Slot { state, name }, slots, edges)?;
                    Ok(())
                }
            }
        }
    }
}

/// Adds the edges to the nonterminals among the symbols.
fn propagate_along<'g>(
    alloc: Global,
    grammar: &Grammar,
    firsts: &FirstSets,
    states: &[Lr1State<'_>],
    from: usize,
    state: usize,
    symbols: &'g [Symbol],
    slots: &mut Slots<'g>,
    edges: &mut Vec<Edge>,
) -> Result<(), AllocError>
    requires firsts { AreFirstSetsOf grammar.now firsts.now }
    requires slots { AreSlots slots.old }
    ensures { OnOk result ((look : List ℕ → LookaheadSet) → GainsEdges from slots.old edges.old.items slots.new edges.new.items
        (PropagatesBelow grammar.now look states.now state symbols.now (length symbols.now))) }
{
    for dot in 0..symbols.len() {
        propagate_at(
            alloc, grammar, firsts, states, from, state, symbols, dot, slots, edges,
        )?;
    }
    Ok(())
}

/// Adds the edges by the production, where it is of the slot's name.
fn propagate_by<'g>(
    alloc: Global,
    grammar: &Grammar,
    firsts: &FirstSets,
    states: &[Lr1State<'_>],
    from: usize,
    slot: Slot<'g>,
    production: &'g Production,
    slots: &mut Slots<'g>,
    edges: &mut Vec<Edge>,
) -> Result<(), AllocError>
    requires firsts { AreFirstSetsOf grammar.now firsts.now }
    requires slots { AreSlots slots.old }
    ensures { OnOk result ((look : List ℕ → LookaheadSet) → GainsEdges from slots.old edges.old.items slots.new edges.new.items
        (PropagatesBy grammar.now look states.now (slot_key slot.entry) production.now)) }
{
    if is_of(production, slot.name) {
        let symbols = production.symbols.as_slice();
        propagate_along(
            alloc, grammar, firsts, states, from, slot.state, symbols, slots, edges,
        )?;
    }
    Ok(())
}

/// Adds the edges by the productions of the slot's name.
fn propagate<'g>(
    alloc: Global,
    grammar: &Grammar,
    firsts: &FirstSets,
    states: &[Lr1State<'_>],
    productions: &[&'g Production],
    from: usize,
    slot: Slot<'g>,
    slots: &mut Slots<'g>,
    edges: &mut Vec<Edge>,
) -> Result<(), AllocError>
    requires firsts { AreFirstSetsOf grammar.now firsts.now }
    requires slots { AreSlots slots.old }
    ensures { OnOk result ((look : List ℕ → LookaheadSet) → GainsEdges from slots.old edges.old.items slots.new edges.new.items
        (PropagatesBySome grammar.now look states.now (slot_key slot.entry) (lent productions.now))) }
{
    for production in productions {
        propagate_by(
            alloc,
            grammar,
            firsts,
            states,
            from,
            slot,
            *production,
            slots,
            edges,
        )?;
    }
    Ok(())
}

/// The edges along which slots propagate what is propagated to them. Slots to which something is propagated are put in.
pub(crate) fn propagation_edges<'g>(
    alloc: Global,
    grammar: &Grammar,
    firsts: &FirstSets,
    states: &[Lr1State<'_>],
    named: &NamedProductions<'_, 'g>,
    slots: &mut Slots<'g>,
) -> Result<Vec<Edge>, AllocError>
    requires firsts { AreFirstSetsOf grammar.now firsts.now }
    requires named { AreListedByName named.now }
    requires slots { AreSlots slots.old }
    ensures { IfOk result (λ edges. (look : List ℕ → LookaheadSet) →
        ArePropagationEdges grammar.now look states.now (table_productions named.now.table.now) slots.old slots.new edges.items
        (length slots.new.keys.keys)) }
{
    let mut edges = Vec::new(alloc);
    let mut number = 0;
    while let Some(slot) = slots.slot_at(number) {
        propagate(
            alloc,
            grammar,
            firsts,
            states,
            named.productions_of(slot.name),
            number,
            slot,
            slots,
            &mut edges,
        )?;
        number += 1;
    }
    Ok(edges)
}
