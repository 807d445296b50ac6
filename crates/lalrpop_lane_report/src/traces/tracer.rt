//! Traces back from an item of a state: which items, in which states, asked for its nonterminal.

ghost use Rattle.std.specs.Prelude.{◌≡◌, ◌↔◌, ◌∷◌, ℕ, [], IfOk, IsTrue, OnOk, Option, Some, map};
ghost use Rattle.lalrpop_grammar_repr.specs.declared.grammar.Grammar.{Grammar};
ghost use Rattle.lalrpop_grammar_repr.specs.declared.production.Symbol.TheVariants as symbols;
ghost use Rattle.lalrpop_lr1_core.specs.Dots.{at_dot};
ghost use Rattle.lalrpop_lr1_core.specs.Edges.{SymbolsLead, edges_of};
ghost use Rattle.lalrpop_lr1_core.specs.declared.item.Item.{Item};
ghost use Rattle.lalrpop_sets.specs.declared.nil.Nil.{Nil};
ghost use Rattle.lalrpop_lr1_first.specs.FirstSetsOf.{AreFirstSetsOf};
ghost use Rattle.lalrpop_lane_report.specs.Backtraces.{IsReductionTrace, IsShiftTrace};
ghost use Rattle.lalrpop_lane_report.specs.TraceGraphs.{IsWhole};
ghost use Rattle.lalrpop_lane_report.specs.Tracings.{
  AsksOfItems,
  GainsPairs,
  GoesBy,
  IsTraced,
  IsBacktracing,
  Suits,
  items_of_number,
  no_graph,
  pair_asked,
};

use crate::traces::trace_graph::TraceGraph;
use indexmap::IndexSet;
use lalrpop_grammar_repr::{Symbol, TerminalSet};
use lalrpop_grammar_symbols::NonterminalString;
use lalrpop_lr1_core::{Lr0Item, Lr1Item, Lr1State, StateGraph, StateIndex};
use lalrpop_lr1_first::FirstSets;
use std::alloc::{AllocError, Global};
use std::marker::Model;

/// Of what a trace is.
#[derive(Clone, Copy)]
enum Kind {
    /// Of a shift: it goes on from an item whose dot is in front.
    Shift,
    /// Of a reduction: it goes on from an item behind whose nonterminal nothing need come.
    Reduction,
}

/// A nonterminal that is asked for in a state.
#[derive(Clone, Copy, PartialEq, Eq, Hash)]
struct Asked<'g> {
    state: usize,
    name: &'g NonterminalString,
}

/// What traces go over: states, with their graph and the first sets of their grammar.
#[derive(Drop)]
struct Ground<'trace, 'g> {
    alloc: Global,
    states: &'trace [Lr1State<'g>],
    first_sets: &'trace FirstSets,
    terminals: &'trace TerminalSet,
    state_graph: StateGraph,
}

/// Traces back how states came to have items, over the states of a construction.
#[derive(Drop)]
pub struct Tracer<'trace, 'g> {
    ground: Ground<'trace, 'g>,
}

impl<'trace, 'g> Model for Tracer<'trace, 'g> {
    ghost use Rattle.std.specs.Prelude.{◌≡◌};
    ghost use Rattle.lalrpop_lr1_core.specs.Edges.{edges_of};
    ghost use Rattle.lalrpop_lane_report.specs.BacktracerViews.{BacktracerView};

    ghost Value = { BacktracerView };

    ghost view = { λ it. record {
      states = it.ground.states.now;
      firsts = it.ground.first_sets.now;
      terminals = it.ground.terminals.now;
    } };

    ghost invariant = { λ it. it.ground.state_graph ≡ edges_of it.ground.states.now };
}

/// Visits the nonterminal in each state from which the symbols lead to the state, unless it was.
fn visit_begins<'g>(
    ground: &Ground<'_, 'g>,
    state: usize,
    name: &'g NonterminalString,
    prefix: &[Symbol],
    visited: &mut IndexSet<Asked<'g>>,
) -> Result<(), AllocError>
    requires { ground.now.state_graph ≡ edges_of ground.now.states.now }
    ensures { OnOk result (GainsPairs (map pair_asked visited.old.keys)
        (λ p. SymbolsLead (edges_of ground.now.states.now) p.0 prefix.now state × (p.1 ≡ name.entry.now)) (map pair_asked visited.new.keys)) }
{
    let states = ground
        .state_graph
        .trace_back(ground.alloc, StateIndex(state), prefix)?;
    let sources = states.as_slice();
    for source in sources {
        visited.insert(Asked {
            state: source.0,
            name,
        })?;
    }
    Ok(())
}

/// Whether a trace of the kind goes on from the item.
fn goes_on(ground: &Ground<'_, '_>, kind: Kind, item: &Lr1Item<'_>) -> Result<bool, AllocError>
    ensures { IfOk result (λ goes. (by : Option Grammar) → Suits kind ground.now.first_sets.now ground.now.terminals.now by →
        IsTrue goes ↔ GoesBy by item.now) }
{
    match kind {
        Kind::Shift => Ok(item.index == 0),
        Kind::Reduction => {
            let behind = item.symbol_sets().suffix;
            let first = ground
                .first_sets
                .first0(ground.alloc, ground.terminals, behind)?;
            Ok(first.contains_eof(ground.terminals))
        }
    }
}

/// Draws the edge of an item that asks for the nonterminal in the state, and visits its own where it begins, if the trace goes on there.
fn draw_item<'g>(
    ground: &Ground<'_, 'g>,
    kind: Kind,
    asked: Asked<'g>,
    item: &Lr1Item<'g>,
    visited: &mut IndexSet<Asked<'g>>,
    graph: &mut TraceGraph<'g>,
) -> Result<(), AllocError>
    requires ground { ground.now.state_graph ≡ edges_of ground.now.states.now }
    requires whole { IsWhole graph.old }
    requires asks { at_dot item.now ≡ Some (symbols.Nonterminal asked.name.now) }
    ensures whole { OnOk result (IsWhole graph.new) }
    ensures asks { OnOk result ((by : Option Grammar) → Suits kind ground.now.first_sets.now ground.now.terminals.now by →
        AsksOfItems ground.now.states.now by (pair_asked asked.entry) (item.now ∷ []) (map pair_asked visited.old.keys)
        (map pair_asked visited.new.keys) graph.old graph.new) }
{
    let production = item.production;
    let labels = item.symbol_sets();
    let to = asked.name.try_clone()?;
    let goes = goes_on(ground, kind, item)?;
    if goes {
        let from = production.nonterminal.try_clone()?;
        graph.add_edge(from, to, labels)?;
        visit_begins(
            ground,
            asked.state,
            &production.nonterminal,
            labels.prefix,
            visited,
        )
    } else {
        graph.add_edge(item, to, labels)
    }
}

/// Draws the edges of the items of the state that ask for the nonterminal.
fn draw_items<'g>(
    ground: &Ground<'_, 'g>,
    kind: Kind,
    asked: Asked<'g>,
    visited: &mut IndexSet<Asked<'g>>,
    graph: &mut TraceGraph<'g>,
) -> Result<(), AllocError>
    requires ground { ground.now.state_graph ≡ edges_of ground.now.states.now }
    requires whole { IsWhole graph.old }
    ensures whole { OnOk result (IsWhole graph.new) }
    ensures asks { OnOk result ((by : Option Grammar) → Suits kind ground.now.first_sets.now ground.now.terminals.now by →
        AsksOfItems ground.now.states.now by (pair_asked asked.entry) (items_of_number ground.now.states.now asked.entry.state)
        (map pair_asked visited.old.keys) (map pair_asked visited.new.keys) graph.old graph.new) }
{
    let Some(state) = ground.states.get(asked.state) else {
        return Ok(());
    };
    let items = state.items.vec.as_slice();
    for item in items {
        if !item.can_shift_nonterminal(asked.name) {
            continue;
        }
        draw_item(ground, kind, asked, item, visited, graph)?;
    }
    Ok(())
}

/// Draws the edges of all that was visited, and visits what comes of that.
fn draw_all<'g>(
    ground: &Ground<'_, 'g>,
    kind: Kind,
    visited: &mut IndexSet<Asked<'g>>,
    graph: &mut TraceGraph<'g>,
) -> Result<(), AllocError>
    requires ground { ground.now.state_graph ≡ edges_of ground.now.states.now }
    requires whole { IsWhole graph.old }
    ensures { OnOk result ((by : Option Grammar) → Suits kind ground.now.first_sets.now ground.now.terminals.now by → (n : ℕ) (item : Item Nil) →
        IsBacktracing ground.now.states.now by n item (map pair_asked visited.old.keys) 0 graph.old → IsTraced ground.now.states.now by n item graph.new) }
{
    let mut number = 0;
    while number < visited.len() {
        let asked = visited.as_slice()[number];
        draw_items(ground, kind, asked, visited, graph)?;
        number += 1;
    }
    Ok(())
}

/// Draws the graph of a trace, where nothing was visited or drawn.
fn draw_from<'g>(
    ground: &Ground<'_, 'g>,
    kind: Kind,
    state: StateIndex,
    item: Lr0Item<'g>,
    visited: &mut IndexSet<Asked<'g>>,
    graph: &mut TraceGraph<'g>,
) -> Result<(), AllocError>
    requires ground { ground.now.state_graph ≡ edges_of ground.now.states.now }
    requires visited { visited.old.keys ≡ [] }
    requires graph { graph.old ≡ no_graph }
    ensures { OnOk result ((by : Option Grammar) → Suits kind ground.now.first_sets.now ground.now.terminals.now by →
        IsTraced ground.now.states.now by state.0 item.entry graph.new) }
{
    let production = item.production;
    let labels = item.symbol_sets();
    let from = production.nonterminal.try_clone()?;
    graph.add_edge(from, item, labels)?;
    visit_begins(
        ground,
        state.0,
        &production.nonterminal,
        labels.prefix,
        visited,
    )?;
    draw_all(ground, kind, visited, graph)
}

/// Draws the graph of a trace, where nothing was drawn.
fn draw_trace<'g>(
    ground: &Ground<'_, 'g>,
    kind: Kind,
    state: StateIndex,
    item: Lr0Item<'g>,
    graph: &mut TraceGraph<'g>,
) -> Result<(), AllocError>
    requires ground { ground.now.state_graph ≡ edges_of ground.now.states.now }
    requires graph { graph.old ≡ no_graph }
    ensures { OnOk result ((by : Option Grammar) → Suits kind ground.now.first_sets.now ground.now.terminals.now by →
        IsTraced ground.now.states.now by state.0 item.entry graph.new) }
{
    let mut visited = IndexSet::new(ground.alloc);
    draw_from(ground, kind, state, item, &mut visited, graph)
}

/// The graph of a trace.
fn trace<'g>(
    ground: &Ground<'_, 'g>,
    kind: Kind,
    state: StateIndex,
    item: Lr0Item<'g>,
) -> Result<TraceGraph<'g>, AllocError>
    requires { ground.now.state_graph ≡ edges_of ground.now.states.now }
    ensures { IfOk result (λ graph. (by : Option Grammar) → Suits kind ground.now.first_sets.now ground.now.terminals.now by →
        IsTraced ground.now.states.now by state.0 item.entry graph) }
{
    let mut graph = TraceGraph::new(ground.alloc);
    draw_trace(ground, kind, state, item, &mut graph)?;
    Ok(graph)
}

impl<'trace, 'g> Tracer<'trace, 'g> {
    /// A tracer over states. The first sets are those of their grammar, whose terminals these are.
    pub fn new(
        alloc: Global,
        first_sets: &'trace FirstSets,
        states: &'trace [Lr1State<'g>],
        terminals: &'trace TerminalSet,
    ) -> Result<Tracer<'trace, 'g>, AllocError>
        ensures { IfOk result (λ tracer. tracer ≡ record { states = states.now; firsts = first_sets.now; terminals = terminals.now }) }
    {
        let state_graph = StateGraph::new(alloc, states)?;
        Ok(Tracer {
            ground: Ground {
                alloc,
                states,
                first_sets,
                terminals,
                state_graph,
            },
        })
    }

    /// How the state came to have the item, which shifts: from which items its nonterminal was asked for, back to those whose dot isn't in
    /// front.
    pub fn backtrace_shift(
        self,
        item_state: StateIndex,
        item: Lr0Item<'g>,
    ) -> Result<TraceGraph<'g>, AllocError>
        ensures { IfOk result (λ graph. IsShiftTrace self.entry.states item_state.0 item.entry graph) }
    {
        trace(&self.ground, Kind::Shift, item_state, item)
    }

    /// What can come behind the item once it is reduced in the state: from which items its nonterminal was asked for, back to those behind
    /// whose nonterminal something has to come.
    pub fn backtrace_reduce(
        self,
        item_state: StateIndex,
        item: Lr0Item<'g>,
    ) -> Result<TraceGraph<'g>, AllocError>
        ensures { IfOk result (λ graph. (g : Grammar) → AreFirstSetsOf g self.entry.firsts → self.entry.terminals ≡ g.terminals →
            IsReductionTrace g self.entry.states item_state.0 item.entry graph) }
    {
        trace(&self.ground, Kind::Reduction, item_state, item)
    }
}
