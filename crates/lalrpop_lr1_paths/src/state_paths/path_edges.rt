//! The edges of states by numbers.

ghost use Rattle.std.specs.Prelude.{◌≡◌, ◌++◌, IfOk, OnOk, flat_map, length, map};
ghost use Rattle.lalrpop_grammar_repr.specs.declared.production.Symbol.TheVariants as symbols;
ghost use Rattle.lalrpop_lr1_core.specs.Edges.{edges_of, goto_edge, shift_edge, state_edges};
ghost use Rattle.lalrpop_lr1_paths.specs.NumberEdges.{edge_list, number_edges, number_of_symbol};

use lalrpop_grammar_repr::Map;
use lalrpop_grammar_symbols::{NonterminalString, TerminalString};
use lalrpop_lr1_core::{State, StateIndex};
use lalrpop_lr1_least_trees::LeastTrees;
use std::alloc::{AllocError, Global};

/// An edge by numbers: the states have theirs, and the symbol that of the grammar's table.
#[derive(Clone, Copy)]
pub(crate) struct NumberEdge {
    /// The state from which it leads.
    pub(crate) source: usize,
    /// Its symbol.
    pub(crate) symbol: usize,
    /// The state to which it leads.
    pub(crate) target: usize,
}

/// The number of the terminal, if it is one of the grammar's.
///
/// # Errors
///
/// It is no number: so many symbols fit in no memory.
fn terminal_number(
    trees: &LeastTrees<'_>,
    terminal: &TerminalString,
) -> Result<Option<usize>, AllocError>
    ensures { IfOk result (λ number. number ≡ number_of_symbol trees.now (symbols.Terminal terminal.now)) }
{
    let table = trees.table();
    match table.terminals().bits.get(terminal) {
        None => Ok(None),
        Some(place) => match table.names().len().checked_add(*place) {
            Some(number) => Ok(Some(number)),
            None => Err(AllocError),
        },
    }
}

/// Adds the edge by the symbol with the number; none where it has no number, or leads to no state.
fn push_edge(
    states: usize,
    source: usize,
    number: Option<usize>,
    target: usize,
    edges: &mut Vec<NumberEdge>,
) -> Result<(), AllocError>
    ensures { OnOk result (edges.new.items ≡ edges.old.items ++ edge_list states source number target) }
{
    let Some(symbol) = number else {
        return Ok(());
    };
    if target < states {
        edges.push(NumberEdge {
            source,
            symbol,
            target,
        })?;
    }
    Ok(())
}

/// Adds the edges of a state's shifts.
fn add_shifts(
    trees: &LeastTrees<'_>,
    states: usize,
    source: usize,
    shifts: &Map<TerminalString, StateIndex>,
    edges: &mut Vec<NumberEdge>,
) -> Result<(), AllocError>
    ensures { OnOk result (edges.new.items ≡ edges.old.items ++ flat_map (number_edges trees.now states)
        (map (shift_edge source) shifts.now)) }
{
    for (terminal, target) in shifts.iter() {
        let number = terminal_number(trees, terminal)?;
        push_edge(states, source, number, target.0, edges)?;
    }
    Ok(())
}

/// Adds the edges of a state's gotos.
fn add_gotos(
    trees: &LeastTrees<'_>,
    states: usize,
    source: usize,
    gotos: &Map<NonterminalString, StateIndex>,
    edges: &mut Vec<NumberEdge>,
) -> Result<(), AllocError>
    ensures { OnOk result (edges.new.items ≡ edges.old.items ++ flat_map (number_edges trees.now states)
        (map (goto_edge source) gotos.now)) }
{
    for (name, target) in gotos.iter() {
        push_edge(states, source, trees.number(name), target.0, edges)?;
    }
    Ok(())
}

/// Adds the edges of a state.
fn add_edges<L>(
    trees: &LeastTrees<'_>,
    states: usize,
    source: usize,
    state: &State<'_, L>,
    edges: &mut Vec<NumberEdge>,
) -> Result<(), AllocError>
    ensures { OnOk result (edges.new.items ≡ edges.old.items ++ flat_map (number_edges trees.now states)
        (state_edges (source, state.now))) }
{
    add_shifts(trees, states, source, &state.shifts, edges)?;
    add_gotos(trees, states, source, &state.gotos, edges)?;
    Ok(())
}

/// The edges of the states whose symbols have numbers, and which lead to a state.
pub(crate) fn path_edges<L>(
    alloc: Global,
    trees: &LeastTrees<'_>,
    states: &[State<'_, L>],
) -> Result<Vec<NumberEdge>, AllocError>
    ensures { IfOk result (λ edges. edges.items ≡ flat_map (number_edges trees.now (length states.now)) (edges_of states.now)) }
{
    let mut edges = Vec::new(alloc);
    for (source, state) in states.iter().enumerate() {
        add_edges(trees, states.len(), source, state, &mut edges)?;
    }
    Ok(edges)
}
