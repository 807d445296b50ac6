//! What is propagated to the slots of nonterminals in states.

ghost use Rattle.std.specs.Prelude.{◌≡◌, ◌≤◌, [], ℕ, List, Contains, IfOk, OnOk, Some, length, map};
ghost use Rattle.lalrpop_sets.specs.Tokens.{eof_number};
ghost use Rattle.lalrpop_lr1_theory.specs.States.{LookaheadSet};
ghost use Rattle.lalrpop_lr1_first.specs.FirstSetsOf.{AreFirstSetsOf};
ghost use Rattle.lalrpop_lr1_first.specs.NumberedGrammars.{HasItsTerminals, table_productions};
ghost use Rattle.lalrpop_lr1_barren.specs.NamedLists.{AreListedByName};
ghost use Rattle.lalrpop_lr1_check_lookaheads.specs.LookaheadFlows.{AreFlown, AreSeeds, IsSlotEdge};
ghost use Rattle.lalrpop_lr1_check_lookaheads.specs.LookaheadSlots.{AreSlots, HasSlotMark, slot_keys, slot_sets};
ghost use Rattle.lalrpop_lr1_check_lookaheads.specs.PropagationEdges.{ArePropagationEdges};

use crate::lookaheads::propagation::propagation_edges;
use crate::lookaheads::seeds::{close_slots, seed_all_items};
use crate::lookaheads::slots::{Slot, Slots};
use lalrpop_grammar_repr::{Grammar, TerminalSet};
use lalrpop_grammar_symbols::NonterminalString;
use lalrpop_lr1_barren::reachable::NamedProductions;
use lalrpop_lr1_core::Lr1State;
use lalrpop_lr1_first::{Edge, FirstSets, flow};
use lalrpop_sets::TokenSet;
use std::alloc::{AllocError, Global};

/// Puts in the slots of the names that stand behind dots, each with what can come first behind them, and the start's with the end.
fn seed_slots<'g>(
    alloc: Global,
    grammar: &Grammar,
    firsts: &FirstSets,
    named: &NamedProductions<'_, 'g>,
    start: &'g NonterminalString,
    states: &[Lr1State<'g>],
    slots: &mut Slots<'g>,
) -> Result<(), AllocError>
    requires firsts { AreFirstSetsOf grammar.now firsts.now }
    requires named { AreListedByName named.now }
    requires keys { slot_keys slots.old ≡ [] }
    requires sets { slot_sets slots.old ≡ [] }
    ensures { OnOk result (AreSeeds grammar.now (table_productions named.now.table.now) start.now.0 states.now slots.new) }
{
    seed_all_items(alloc, grammar, firsts, states, slots)?;
    close_slots(alloc, grammar, firsts, named, slots)?;
    let end = TokenSet::eof(alloc, &grammar.terminals)?;
    let first = Slot {
        state: 0,
        name: start,
    };
    slots.add(alloc, &grammar.terminals, first, &end)
}

/// The slots of the names that stand behind dots, each with what can come first behind them, and the start's with the end.
fn seeded_slots<'g>(
    alloc: Global,
    grammar: &Grammar,
    firsts: &FirstSets,
    named: &NamedProductions<'_, 'g>,
    start: &'g NonterminalString,
    states: &[Lr1State<'g>],
) -> Result<Slots<'g>, AllocError>
    requires firsts { AreFirstSetsOf grammar.now firsts.now }
    requires named { AreListedByName named.now }
    ensures { IfOk result (λ slots. AreSeeds grammar.now (table_productions named.now.table.now) start.now.0 states.now slots) }
{
    let mut slots = Slots::new(alloc);
    seed_slots(alloc, grammar, firsts, named, start, states, &mut slots)?;
    Ok(slots)
}

/// The slots to which something is propagated, each with what it is seeded with, and the edges along which they propagate it.
pub(crate) fn slots_and_edges<'g>(
    alloc: Global,
    grammar: &Grammar,
    named: &NamedProductions<'_, 'g>,
    start: &'g NonterminalString,
    states: &[Lr1State<'g>],
) -> Result<(Slots<'g>, Vec<Edge>), AllocError>
    requires grammar { HasItsTerminals grammar.now }
    requires named { AreListedByName named.now }
    ensures { IfOk result (λ made. (seeded : _)
        × AreSeeds grammar.now (table_productions named.now.table.now) start.now.0 states.now seeded
        × ((look : List ℕ → LookaheadSet) → ArePropagationEdges grammar.now look states.now (table_productions named.now.table.now)
        seeded made.0 made.1.items (length made.0.keys.keys))) }
{
    let firsts = FirstSets::new(alloc, grammar)?;
    let mut slots = seeded_slots(alloc, grammar, &firsts, named, start, states)?;
    let edges = propagation_edges(alloc, grammar, &firsts, states, named, &mut slots)?;
    Ok((slots, edges))
}

/// Copies of the sets, as they flow along edges.
fn option_sets(alloc: Global, sets: &[TokenSet]) -> Result<Vec<Option<TokenSet>>, AllocError>
    ensures { IfOk result (λ copies. copies.items ≡ map Some sets.now) }
{
    let mut copies = Vec::new(alloc);
    for set in sets {
        copies.push(Some(set.try_clone()?))?;
    }
    Ok(copies)
}

/// The tokens of each slot, with those that come along the edges.
pub(crate) fn flown_sets(
    alloc: Global,
    terminals: &TerminalSet,
    slots: &Slots<'_>,
    edges: &[Edge],
) -> Result<Vec<Option<TokenSet>>, AllocError>
    requires are { AreSlots slots.now }
    requires tokens { (key : _) (k : ℕ) → HasSlotMark slots.now key (Some k) → k ≤ eof_number terminals.now }
    requires edges { (e : _) → Contains edges.now e → IsSlotEdge slots.now e }
    ensures { IfOk result (λ sets. AreFlown slots.now edges.now sets.items) }
{
    let mut firsts = Vec::new(alloc);
    firsts.push(TokenSet::eof(alloc, terminals)?)?;
    let mut sets = option_sets(alloc, slots.sets.as_slice())?;
    flow(alloc, terminals, firsts.as_slice(), edges, &mut sets)?;
    Ok(sets)
}
