//! The graph of states: their shifts and gotos as edges.

ghost use Rattle.std.specs.Prelude.{◌≡◌, ◌+◌, ◌<◌, ◌++◌, ◌↔◌, ◌∷◌, [], ℕ, Contains, IfOk, IsTrue, MatchOption, OnOk, Some};
ghost use Rattle.std.specs.Prelude.{length, map, slice_get, take};
ghost use Rattle.std.specs.List.Sorted.{IsStrictlyIncreasing};
ghost use Rattle.lalrpop_lr1_core.specs.IncomingEdges.{HasNewest, HasPrevious, HaveAllTo, edges_to};
ghost use Rattle.lalrpop_lr1_core.specs.Edges.{SymbolsLead, state_edges, edges_of, goto_edge, shift_edge, sources_of, targets_of};

use crate::edge::Edge;
use crate::state::State;
use crate::state_index::StateIndex;
use crate::trace::{sources_by, state_indexes};
use lalrpop_grammar_repr::{Map, Symbol};
use lalrpop_grammar_symbols::{List, NonterminalString, TerminalString};
use std::alloc::{AllocError, Global};
use std::collections::BTreeSet;
use std::marker::Model;

/// The graph of states. An edge may lead to a state that isn't there.
#[derive(Drop)]
pub struct StateGraph {
    // The edges, state by state, the shifts of each before its gotos.
    edges: List<Edge>,
    // For each state how many edges there are until the newest that leads to it, 0 where none does.
    newest: List<usize>,
    // For each edge how many there are until the one before it that leads to the same state, 0 where none does.
    previous: List<usize>,
}

impl Model for StateGraph {
    ghost use Rattle.std.specs.Prelude.{List, length};
    ghost use Rattle.lalrpop_lr1_core.specs.declared.edge.Edge.{Edge};
    ghost use Rattle.lalrpop_lr1_core.specs.IncomingEdges.{HasNewest, HasPrevious};

    ghost Value = { List Edge };

    ghost view = { λ it. it.edges };

    ghost invariant = { λ it. HasNewest it.edges (length it.edges) it.newest × HasPrevious it.edges it.previous };
}

/// The states to which the edges from a state lead, the newest edge first. `StateGraph::successors` makes it.
#[derive(Clone, Copy)]
pub struct Successors<'s> {
    // The edges that are still to come, the last one first.
    edges: &'s [Edge],
    state: usize,
}

/// The states from which edges by a symbol lead to a state, the newest edge first. `StateGraph::predecessors` makes it.
#[derive(Clone, Copy)]
pub struct Predecessors<'s> {
    graph: &'s StateGraph,
    // So many of its edges are still to come, the last one first.
    left: usize,
    symbol: &'s Symbol,
    state: usize,
}

/// Adds the edges of a state's shifts.
fn add_shift_edges(
    source: usize,
    shifts: &Map<TerminalString, StateIndex>,
    edges: &mut List<Edge>,
) -> Result<(), AllocError>
    ensures { OnOk result (edges.new ≡ edges.old ++ map (shift_edge source) shifts.now) }
{
    for (terminal, target) in shifts.iter() {
        edges.push(Edge {
            source,
            symbol: Symbol::Terminal(terminal.try_clone()?),
            target: target.0,
        })?;
    }
    Ok(())
}

/// Adds the edges of a state's gotos.
fn add_goto_edges(
    source: usize,
    gotos: &Map<NonterminalString, StateIndex>,
    edges: &mut List<Edge>,
) -> Result<(), AllocError>
    ensures { OnOk result (edges.new ≡ edges.old ++ map (goto_edge source) gotos.now) }
{
    for (name, target) in gotos.iter() {
        edges.push(Edge {
            source,
            symbol: Symbol::Nonterminal(name.try_clone()?),
            target: target.0,
        })?;
    }
    Ok(())
}

/// Adds the edges of a state.
fn add_edges<L>(
    source: usize,
    state: &State<'_, L>,
    edges: &mut List<Edge>,
) -> Result<(), AllocError>
    ensures { OnOk result (edges.new ≡ edges.old ++ state_edges (source, state.now)) }
{
    add_shift_edges(source, &state.shifts, edges)?;
    add_goto_edges(source, &state.gotos, edges)
}

/// Notes the edge in this place as the newest that leads to its state: how many edges there were until the one before it.
fn link(edges: &[Edge], place: usize, newest: &mut [usize]) -> usize
    requires place { place < length edges.now }
    requires newest { HasNewest edges.now place newest.old }
    ensures newest { HasNewest edges.now (place + 1) newest.new }
    ensures previous { (edge : Edge) → slice_get edges.now place ≡ Some edge → HaveAllTo edge.target edges.now place result }
{
    let target = edges[place].target;
    if target < newest.len() {
        let before = newest[target];
        newest[target] = place + 1;
        before
    } else {
        place
    }
}

/// For each of so many states how many edges there are until the newest that leads to it, and for each edge until the one before it that
/// leads to the same state.
fn links_of(
    alloc: Global,
    edges: &[Edge],
    states: usize,
) -> Result<(List<usize>, List<usize>), AllocError>
    ensures newest { IfOk result (λ links. HasNewest edges.now (length edges.now) links.0) }
    ensures previous { IfOk result (λ links. HasPrevious edges.now links.1) }
{
    let mut newest = vec![in alloc; 0; states]?;
    let mut previous = Vec::with_capacity(alloc, edges.len())?;
    for place in 0..edges.len() {
        let before = link(edges, place, newest.as_mut_slice());
        previous.push(before)?;
    }
    Ok((List::from_vec(newest), List::from_vec(previous)))
}

/// The target of the last edge from the state among the edges, which become those before it.
fn next_target(edges: &mut &[Edge], state: usize) -> Option<StateIndex>
    ensures { let before = targets_of state edges.old.now in
        let after = targets_of state edges.new.now in
        MatchOption result ((before ≡ []) × (after ≡ [])) (λ index. before ≡ index ∷ after) }
{
    while let Some((last, others)) = edges.split_last() {
        *edges = others;
        if last.source == state {
            return Some(StateIndex(last.target));
        }
    }
    None
}

/// The source of the newest edge by the symbol to the state among the first so many edges of the graph, which become fewer.
fn next_source(
    graph: &StateGraph,
    left: &mut usize,
    symbol: &Symbol,
    state: usize,
) -> Option<StateIndex>
    ensures { let before = sources_of state symbol.now (take left.old graph.now) in
        let after = sources_of state symbol.now (take left.new graph.now) in
        MatchOption result ((before ≡ []) × (after ≡ [])) (λ index. before ≡ index ∷ after) }
{
    while let Some((newest, before)) = graph.newest_to(state, *left) {
        *left = before;
        if newest.target == state && newest.symbol == *symbol {
            return Some(StateIndex(newest.source));
        }
    }
    None
}

impl<'s> Iterator for Successors<'s> {
    ghost use Rattle.std.specs.Iterator.{YieldsFirst, item_count};
    ghost use Rattle.lalrpop_lr1_core.specs.EdgesLeft.{successors_left};

    type Item = StateIndex;

    ghost next_gives = { YieldsFirst successors_left };

    ghost remaining = { item_count successors_left };

    fn next(&mut self) -> Option<StateIndex> {
        next_target(&mut self.edges, self.state)
    }
}

impl<'s> Iterator for Predecessors<'s> {
    ghost use Rattle.std.specs.Iterator.{YieldsFirst, item_count};
    ghost use Rattle.lalrpop_lr1_core.specs.EdgesLeft.{predecessors_left};

    type Item = StateIndex;

    ghost next_gives = { YieldsFirst predecessors_left };

    ghost remaining = { item_count predecessors_left };

    fn next(&mut self) -> Option<StateIndex> {
        next_source(self.graph, &mut self.left, self.symbol, self.state)
    }
}

impl StateGraph {
    ghost use Rattle.lalrpop_lr1_core.specs.EdgesLeft.{predecessors_left, successors_left};

    /// The graph of the states, each numbered by its place.
    pub fn new<L>(alloc: Global, states: &[State<'_, L>]) -> Result<StateGraph, AllocError>
        ensures { IfOk result (λ graph. graph ≡ edges_of states.now) }
    {
        let mut edges = List::new(alloc);
        for (source, state) in states.iter().enumerate() {
            add_edges(source, state, &mut edges)?;
        }
        let (newest, previous) = links_of(alloc, edges.as_slice(), states.len())?;
        Ok(StateGraph {
            edges,
            newest,
            previous,
        })
    }

    /// The states from which the symbols lead to the state, ascending, each once.
    pub fn trace_back(
        &self,
        alloc: Global,
        state: StateIndex,
        symbols: &[Symbol],
    ) -> Result<Vec<StateIndex>, AllocError>
        ensures ascending { IfOk result (λ traced. IsStrictlyIncreasing (map (λ s. s.0) traced.items)) }
        ensures leads { IfOk result (λ traced. (n : ℕ) → Contains (map (λ s. s.0) traced.items) n
            ↔ SymbolsLead self.now n symbols.now state.0) }
    {
        let mut reached = BTreeSet::new(alloc);
        reached.insert(state.0)?;
        let mut left = symbols;
        while let Some((last, front)) = left.split_last() {
            reached = sources_by(alloc, self.edges.as_slice(), last, &reached)?;
            left = front;
        }
        state_indexes(alloc, &reached)
    }

    /// The states to which the edges from the state lead, one for each edge, the newest edge first. Edges are made state
    /// by state, by shifts before gotos.
    pub fn successors(&self, state: StateIndex) -> Successors<'_>
        ensures { successors_left result ≡ targets_of state.0 self.now }
    {
        Successors {
            edges: self.edges.as_slice(),
            state: state.0,
        }
    }

    /// Among how many edges are all that lead to the state.
    fn count_to(&self, state: usize) -> usize
        ensures { HaveAllTo state self.now (length self.now) result }
    {
        match self.newest.as_slice().get(state) {
            Some(count) => *count,
            None => self.edges.len(),
        }
    }

    /// Among how many edges are all that lead to the state of the edge in this place and are before it.
    fn count_before(&self, place: usize) -> usize
        ensures { (edge : Edge) → slice_get self.now place ≡ Some edge → HaveAllTo edge.target self.now place result }
    {
        match self.previous.as_slice().get(place) {
            Some(count) => *count,
            None => place,
        }
    }

    /// The first so many edges.
    fn front(&self, count: usize) -> &[Edge]
        ensures { result.now ≡ take count self.now }
    {
        let edges = self.edges.as_slice();
        if count < edges.len() {
            &edges[..count]
        } else {
            edges
        }
    }

    /// The last of the first so many edges, and among how many edges are all that lead to the state and are before it.
    fn newest_to(&self, state: usize, count: usize) -> Option<(&Edge, usize)>
        ensures { MatchOption result (take count self.now ≡ []) (λ found. (found.1 < length (take count self.now))
            × (edges_to state (take count self.now) ≡ edges_to state (take found.1 self.now ++ found.0.now ∷ []))) }
    {
        match self.front(count).split_last() {
            Some((newest, others)) => {
                let place = others.len();
                if newest.target == state {
                    Some((newest, self.count_before(place)))
                } else {
                    Some((newest, place))
                }
            }
            None => None,
        }
    }

    /// The states from which edges by the symbol lead to the state, one for each edge, the newest edge first.
    pub fn predecessors<'s>(&'s self, state: StateIndex, symbol: &'s Symbol) -> Predecessors<'s>
        ensures { predecessors_left result ≡ sources_of state.0 symbol.now self.now }
    {
        Predecessors {
            graph: self,
            left: self.count_to(state.0),
            symbol,
            state: state.0,
        }
    }
}
