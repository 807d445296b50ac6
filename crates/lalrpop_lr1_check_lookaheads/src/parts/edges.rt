//! The edges of all states.

ghost use Rattle.std.specs.Prelude.{◌≡◌, ◌++◌, ◌↔◌, IfOk, IsTrue, OnOk, Some, map, slice_get, ℕ};
ghost use Rattle.lalrpop_grammar_symbols.specs.Views.{terminal_view};
ghost use Rattle.lalrpop_lr1_theory.specs.Productions as theory;
ghost use Rattle.lalrpop_lr1_core.specs.Views.{production_symbol_view};
ghost use Rattle.lalrpop_lr1_check_lookaheads.specs.SeenEdges.{
  HasOrderedEdges,
  edge_symbol_view,
  noted_edge,
  edges_of_state,
  edges_of_states,
  seen_goto,
  seen_shift,
  target_at,
};

use lalrpop_grammar_repr::Symbol;
use lalrpop_grammar_symbols::{NonterminalString, TerminalString};
use lalrpop_lr1_core::Lr1State;
use std::alloc::{AllocError, Global};

/// The symbol of an edge.
#[derive(Clone, Copy)]
pub(crate) enum EdgeSymbol<'s> {
    /// A terminal.
    Terminal(&'s TerminalString),
    /// A nonterminal, by its name.
    Nonterminal(&'s NonterminalString),
}

/// An edge from a state to a state, which may not be there.
#[derive(Clone, Copy)]
pub(crate) struct StateEdge<'s> {
    /// The state from which it leads.
    pub(crate) source: usize,
    /// Its symbol.
    pub(crate) symbol: EdgeSymbol<'s>,
    /// The state to which it leads.
    pub(crate) target: usize,
}

/// Adds the edges of a state's shifts.
fn add_shifts<'s>(
    source: usize,
    state: &'s Lr1State<'_>,
    edges: &mut Vec<StateEdge<'s>>,
) -> Result<(), AllocError>
    ensures { OnOk result (map noted_edge edges.new.items ≡ map noted_edge edges.old.items ++ map (seen_shift source) state.now.shifts) }
{
    for (terminal, target) in state.shifts.iter() {
        edges.push(StateEdge {
            source,
            symbol: EdgeSymbol::Terminal(terminal),
            target: target.0,
        })?;
    }
    Ok(())
}

/// Adds the edges of a state's gotos.
fn add_gotos<'s>(
    source: usize,
    state: &'s Lr1State<'_>,
    edges: &mut Vec<StateEdge<'s>>,
) -> Result<(), AllocError>
    ensures { OnOk result (map noted_edge edges.new.items ≡ map noted_edge edges.old.items ++ map (seen_goto source) state.now.gotos) }
{
    for (name, target) in state.gotos.iter() {
        edges.push(StateEdge {
            source,
            symbol: EdgeSymbol::Nonterminal(name),
            target: target.0,
        })?;
    }
    Ok(())
}

/// Adds the edges of a state, whose maps are in order.
fn add_edges<'s>(
    source: usize,
    state: &'s Lr1State<'_>,
    edges: &mut Vec<StateEdge<'s>>,
) -> Result<(), AllocError>
    ensures added { OnOk result (map noted_edge edges.new.items ≡ map noted_edge edges.old.items ++ edges_of_state source state.now) }
    ensures ordered { OnOk result (HasOrderedEdges state.now) }
{
    let _shifts = state.shifts.iter();
    let _gotos = state.gotos.iter();
    add_shifts(source, state, edges)?;
    add_gotos(source, state, edges)?;
    Ok(())
}

/// The edges of the states.
pub(crate) fn edges_of<'s>(
    alloc: Global,
    states: &'s [Lr1State<'_>],
) -> Result<Vec<StateEdge<'s>>, AllocError>
    ensures edges { IfOk result (λ edges. map noted_edge edges.items ≡ edges_of_states states.now) }
    ensures ordered { IfOk result (λ _. (n : ℕ) (state : _) → slice_get states.now n ≡ Some state → HasOrderedEdges state) }
{
    let mut edges = Vec::new(alloc);
    for source in 0..states.len() {
        add_edges(source, &states[source], &mut edges)?;
    }
    Ok(edges)
}

/// Whether the terminals are one.
fn is_same_terminal(terminal: &TerminalString, other: &TerminalString) -> bool
    ensures { IsTrue result ↔ (terminal.now ≡ other.now) }
{
    terminal == other
}

/// Whether the names are one.
fn is_same_name(name: &NonterminalString, other: &NonterminalString) -> bool
    ensures { IsTrue result ↔ (name.now ≡ other.now) }
{
    name == other
}

/// Whether the edge is by the terminal.
fn is_by_terminal(terminal: &TerminalString, own: EdgeSymbol<'_>) -> bool
    ensures { IsTrue result ↔ (theory.terminal (terminal_view terminal.now) ≡ edge_symbol_view own.entry) }
{
    match own {
        EdgeSymbol::Terminal(other) => is_same_terminal(terminal, other),
        EdgeSymbol::Nonterminal(_) => false,
    }
}

/// Whether the edge is by the name.
fn is_by_name(name: &NonterminalString, own: EdgeSymbol<'_>) -> bool
    ensures { IsTrue result ↔ (theory.nonterminal name.now.0 ≡ edge_symbol_view own.entry) }
{
    match own {
        EdgeSymbol::Terminal(_) => false,
        EdgeSymbol::Nonterminal(other) => is_same_name(name, other),
    }
}

/// Whether the symbol is that of the edge.
pub(crate) fn is_symbol(symbol: &Symbol, own: EdgeSymbol<'_>) -> bool
    ensures { IsTrue result ↔ (production_symbol_view symbol.now ≡ edge_symbol_view own.entry) }
{
    match symbol {
        Symbol::Terminal(terminal) => is_by_terminal(terminal, own),
        Symbol::Nonterminal(name) => is_by_name(name, own),
    }
}

/// Where the symbol leads from the state.
pub(crate) fn target_of(state: &Lr1State<'_>, symbol: &Symbol) -> Option<usize>
    ensures { result ≡ target_at state.now symbol.now }
{
    match symbol {
        Symbol::Terminal(terminal) => match state.shifts.get(terminal) {
            Some(target) => Some(target.0),
            None => None,
        },
        Symbol::Nonterminal(name) => match state.gotos.get(name) {
            Some(target) => Some(target.0),
            None => None,
        },
    }
}
