//! The paths of a graph of traces, one after the other.

ghost use Rattle.std.specs.Prelude.{◌≡◌, ◌∷◌, ◌↔◌, ◌<◌, ℕ, List, [], Contains, IfOk, IfSome, IsTrue, MatchOption, OnErr, OnOk, Some, drop, length, map, option_map, slice_get};
ghost use Rattle.lalrpop_grammar_repr.specs.declared.grammar.Grammar.{Grammar};
ghost use Rattle.lalrpop_lr1_core.specs.Views.{production_symbol_view};
ghost use Rattle.lalrpop_lr1_first.specs.FirstSetsOf.{AreFirstSetsOf, IsFirstSet};
ghost use Rattle.lalrpop_lane_report.specs.Enumerators.{GivesExample, TracePath};
ghost use Rattle.lalrpop_lane_report.specs.Examples.{IsExample, labels_of, next_symbols};
ghost use Rattle.lalrpop_lane_report.specs.Paths.{AreBackwardPaths, PathGraph, left_at, left_beside};
ghost use Rattle.lalrpop_lane_report.specs.GraphViews.{graph_view};
ghost use Rattle.lalrpop_lane_report.specs.PathSteps.{IsAtPath, TakesTurn, is_passed as passed, left_into, graph_size, paths_left, taken_steps};
ghost use Rattle.lalrpop_lane_report.specs.PathWalks.{IsWalk, IsWalked};
ghost use Rattle.lalrpop_lane_report.specs.declared.traces.trace_graph.TraceGraphEdge.{TraceGraphEdge};
ghost use Rattle.lalrpop_lane_report.specs.TraceGraphs.{IsWhole, is_item_node, path_graph};
ghost use Rattle.lalrpop_lane_report.specs.TraceNodes.{TraceEdge, trace_edge_view, graph_node_of, node_view};

use crate::traces::example::Example;
use crate::traces::path_examples::{fill_example, next_of};
use crate::traces::trace_graph::{TraceGraph, TraceGraphEdge, TraceGraphNode};
use lalrpop_grammar_repr::TerminalSet;
use lalrpop_lr1_core::Lr0Item;
use lalrpop_lr1_first::FirstSets;
use lalrpop_sets::TokenSet;
use std::alloc::{AllocError, Global};
use std::marker::Model;

/// An edge of a path, and among how many of the edges, from the first on, others into the same node are still to be found.
#[derive(Clone, Copy)]
pub(crate) struct TakenEdge<'graph, 'g> {
    pub(crate) edge: &'graph TraceGraphEdge<'g>,
    left: usize,
}

/// The node that a search has come to, and among how many of the edges, from the first on, those into it are still to be found.
#[derive(Clone, Copy)]
struct Place {
    node: usize,
    left: usize,
}

/// What came of one turn of a search.
#[derive(Clone, Copy)]
enum Turn {
    /// The steps are a path.
    Found,
    /// The search goes on from here.
    Continues(Place),
    /// No path is left.
    Ends,
}

/// Goes through the paths of a graph of traces, from an item back to the items from which it came.
///
/// Edges are walked depth first, the newest first; a path goes to no nonterminal twice, and ends at the first item. The enumerator stands at
/// one of them, until none is left.
#[derive(Drop)]
pub struct PathEnumerator<'graph, 'g> {
    alloc: Global,
    nodes: &'graph [TraceGraphNode<'g>],
    edges: &'graph [TraceGraphEdge<'g>],
    // The steps of the path that was found, the innermost first; none where no path is left.
    steps: Vec<TakenEdge<'graph, 'g>>,
}

impl<'graph, 'g> Model for PathEnumerator<'graph, 'g> {
    ghost use Rattle.std.specs.Prelude.{length};
    ghost use Rattle.lalrpop_lane_report.specs.Enumerators.{EnumeratorView};
    ghost use Rattle.lalrpop_lane_report.specs.PathSteps.{IsAtPath, enumerator_view};

    ghost Value = { EnumeratorView };

    ghost view = { λ it. enumerator_view it.nodes.now it.edges.now it.steps.items };

    ghost invariant = { λ it. IsAtPath it.nodes.now it.edges.now it.steps.items };
}

/// The last of the edges that are left into the node, and how many are left before it.
fn next_edge<'graph, 'g>(
    edges: &'graph [TraceGraphEdge<'g>],
    place: Place,
) -> Option<(&'graph TraceGraphEdge<'g>, usize)>
    ensures left { MatchOption result (left_into edges.now place.left place.node ≡ []) (λ found. left_into edges.now place.left place.node
        ≡ trace_edge_view found.0.now ∷ left_into edges.now found.1 place.node) }
    ensures to { IfSome result (λ found. found.0.now.to ≡ place.node) }
{
    let mut left = place.left;
    while 0 < left {
        left -= 1;
        if let Some(edge) = edges.get(left) {
            if edge.to == place.node {
                return Some((edge, left));
            }
        }
    }
    None
}

/// Whether the node is an item.
fn is_item(nodes: &[TraceGraphNode<'_>], node: usize) -> bool
    ensures { result ≡ is_item_node (option_map node_view (slice_get nodes.now node)) }
{
    match nodes.get(node) {
        Some(TraceGraphNode::Item(_)) => true,
        Some(TraceGraphNode::Nonterminal(_)) => false,
        None => false,
    }
}

/// Whether one of the steps leads to the node.
fn is_passed(steps: &[TakenEdge<'_, '_>], node: usize) -> bool
    ensures { result ≡ passed steps.now node }
{
    for step in steps {
        if node == step.edge.from {
            return true;
        }
    }
    false
}

/// Takes back the last step, where no more edges lead into the node to which it led.
fn step_back(steps: &mut Vec<TakenEdge<'_, '_>>) -> Turn
    ensures { (edges : List TraceGraphEdge) (g : PathGraph TraceEdge) (count : ℕ) → IsWalk g count (taken_steps edges steps.old.items) [] →
        TakesTurn edges g count (taken_steps edges steps.old.items) [] result (taken_steps edges steps.new.items) }
{
    match steps.pop() {
        Some(step) => {
            let edge = step.edge;
            Turn::Continues(Place {
                node: edge.to,
                left: step.left,
            })
        }
        None => Turn::Ends,
    }
}

/// Takes a step along the edge, unless it leads to a nonterminal that was passed. So many edges are left beside it.
fn step_along<'graph, 'g>(
    nodes: &'graph [TraceGraphNode<'g>],
    edges: &'graph [TraceGraphEdge<'g>],
    edge: &'graph TraceGraphEdge<'g>,
    left: usize,
    steps: &mut Vec<TakenEdge<'graph, 'g>>,
) -> Result<Turn, AllocError>
    requires { IsWhole (graph_view nodes.now edges.now) }
    ensures { IfOk result (λ turn. let g = path_graph (graph_view nodes.now edges.now) in
        let beside = trace_edge_view edge.now ∷ left_into edges.now left edge.now.to in
        IsWalk g (graph_size nodes.now) (taken_steps edges.now steps.old.items) beside →
        TakesTurn edges.now g (graph_size nodes.now) (taken_steps edges.now steps.old.items) beside turn (taken_steps edges.now steps.new.items)) }
{
    if is_item(nodes, edge.from) {
        steps.push(TakenEdge { edge, left })?;
        return Ok(Turn::Found);
    }
    if is_passed(steps.as_slice(), edge.from) {
        return Ok(Turn::Continues(Place {
            node: edge.to,
            left,
        }));
    }
    steps.push(TakenEdge { edge, left })?;
    Ok(Turn::Continues(Place {
        node: edge.from,
        left: edges.len(),
    }))
}

/// Takes one turn of the search.
fn take_turn<'graph, 'g>(
    nodes: &'graph [TraceGraphNode<'g>],
    edges: &'graph [TraceGraphEdge<'g>],
    place: Place,
    steps: &mut Vec<TakenEdge<'graph, 'g>>,
) -> Result<Turn, AllocError>
    requires { IsWhole (graph_view nodes.now edges.now) }
    ensures { IfOk result (λ turn. let g = path_graph (graph_view nodes.now edges.now) in
        let left = left_into edges.now place.left place.node in
        IsWalk g (graph_size nodes.now) (taken_steps edges.now steps.old.items) left →
        TakesTurn edges.now g (graph_size nodes.now) (taken_steps edges.now steps.old.items) left turn (taken_steps edges.now steps.new.items)) }
{
    match next_edge(edges, place) {
        Some((edge, left)) => step_along(nodes, edges, edge, left, steps),
        None => Ok(step_back(steps)),
    }
}

/// Searches for the next path from a place on.
fn find_path<'graph, 'g>(
    nodes: &'graph [TraceGraphNode<'g>],
    edges: &'graph [TraceGraphEdge<'g>],
    steps: &mut Vec<TakenEdge<'graph, 'g>>,
    start: Place,
) -> Result<(), AllocError>
    requires whole { IsWhole (graph_view nodes.now edges.now) }
    requires walk { IsWalk (path_graph (graph_view nodes.now edges.now)) (graph_size nodes.now) (taken_steps edges.now steps.old.items)
        (left_into edges.now start.left start.node) }
    ensures left { OnOk result (left_beside (path_graph (graph_view nodes.now edges.now)) (graph_size nodes.now) (taken_steps edges.now steps.new.items)
        ≡ left_at (path_graph (graph_view nodes.now edges.now)) (graph_size nodes.now) (taken_steps edges.now steps.old.items)
        (left_into edges.now start.left start.node)) }
    ensures walked { OnOk result (IsWalked (path_graph (graph_view nodes.now edges.now)) (graph_size nodes.now) (taken_steps edges.now steps.new.items)) }
{
    let mut place = start;
    'search: loop {
        match take_turn(nodes, edges, place, steps)? {
            Turn::Continues(next) => place = next,
            Turn::Found => return Ok(()),
            Turn::Ends => return Ok(()),
        }
    }
}

/// Goes on to the next path, where the steps are one.
fn find_next<'graph, 'g>(
    nodes: &'graph [TraceGraphNode<'g>],
    edges: &'graph [TraceGraphEdge<'g>],
    steps: &mut Vec<TakenEdge<'graph, 'g>>,
) -> Result<(), AllocError>
    requires { IsAtPath nodes.now edges.now steps.old.items }
    ensures next { OnOk result (paths_left nodes.now edges.now steps.new.items ≡ drop 1 (paths_left nodes.now edges.now steps.old.items)) }
    ensures path { OnOk result (IsAtPath nodes.now edges.now steps.new.items) }
{
    match steps.pop() {
        Some(step) => {
            let edge = step.edge;
            let place = Place {
                node: edge.to,
                left: step.left,
            };
            find_path(nodes, edges, steps, place)
        }
        None => Ok(()),
    }
}

impl<'g> TraceGraph<'g> {
    /// The paths from an item, one of the nodes, back to the items from which it came.
    pub fn lr0_examples(
        &self,
        alloc: Global,
        lr0_item: Lr0Item<'g>,
    ) -> Result<PathEnumerator<'_, 'g>, AllocError>
        requires { Contains self.now.nodes (graph_node_of lr0_item) }
        ensures graph { IfOk result (λ paths. paths.graph ≡ self.now) }
        ensures paths { IfOk result (λ paths. (n : ℕ) → slice_get self.now.nodes n ≡ Some (graph_node_of lr0_item.entry) →
            AreBackwardPaths (path_graph self.now) n paths.left) }
    {
        let nodes = self.nodes.as_slice();
        let edges = self.edges.as_slice();
        let Some(node) = self.nodes.get_index_of(&TraceGraphNode::Item(lr0_item)) else {
            unreachable!()
        };
        let mut steps = Vec::new(alloc);
        let place = Place {
            node,
            left: edges.len(),
        };
        find_path(nodes, edges, &mut steps, place)?;
        Ok(PathEnumerator {
            alloc,
            nodes,
            edges,
            steps,
        })
    }
}

impl<'graph, 'g> PathEnumerator<'graph, 'g> {
    /// Goes on to the next path, and tells whether there is one. Where memory is refused, none is left.
    pub fn advance(&mut self) -> Result<bool, AllocError>
        ensures next { OnOk result (self.new.left ≡ drop 1 self.old.left) }
        ensures more { IfOk result (λ more. IsTrue more ↔ (0 < length self.new.left)) }
        ensures refused { OnErr result (self.new.left ≡ []) }
        ensures graph { self.new.graph ≡ self.old.graph }
    {
        match find_next(self.nodes, self.edges, &mut self.steps) {
            Ok(()) => Ok(!self.steps.is_empty()),
            Err(fault) => {
                self.steps.clear();
                Err(fault)
            }
        }
    }

    /// Whether it stands at a path.
    pub fn found_trace(&self) -> bool
        ensures { IsTrue result ↔ (0 < length self.now.left) }
    {
        !self.steps.is_empty()
    }

    /// The tokens that can come next, where the path is the one at which it stands: those that can begin what the innermost cursor and the
    /// suffixes derive, and the end where they derive nothing.
    pub fn first0(
        &self,
        alloc: Global,
        first_sets: &FirstSets,
        terminals: &TerminalSet,
    ) -> Result<TokenSet, AllocError>
        requires { 0 < length self.now.left }
        ensures { IfOk result (λ set. (p : TracePath) (others : List TracePath) → self.now.left ≡ p ∷ others → (g : Grammar) →
            AreFirstSetsOf g first_sets.now → terminals.now ≡ g.terminals →
            IsFirstSet g (map production_symbol_view (next_symbols (labels_of p))) set) }
    {
        let example = self.example(alloc)?;
        let symbols = next_of(alloc, &example)?;
        first_sets.first0(alloc, terminals, symbols.as_slice())
    }

    /// The example that the path tells at which it stands.
    pub fn example(&self, alloc: Global) -> Result<Example, AllocError>
        requires { 0 < length self.now.left }
        ensures { IfOk result (λ example. (p : TracePath) (others : List TracePath) → self.now.left ≡ p ∷ others →
            IsExample self.now.graph.nodes p example) }
    {
        let mut symbols = Vec::new(alloc);
        let mut reductions = Vec::new(alloc);
        let cursor = fill_example(
            self.nodes,
            self.steps.as_slice(),
            &mut symbols,
            &mut reductions,
        )?;
        Ok(Example {
            symbols,
            cursor,
            reductions,
        })
    }

    /// Leaves no path.
    pub(crate) fn end(&mut self)
        ensures left { self.new.left ≡ [] }
        ensures graph { self.new.graph ≡ self.old.graph }
    {
        self.steps.clear();
    }

    /// The example of the path at which it stands, once it went on. Where memory is refused, no path is left.
    fn give(&mut self) -> Result<Example, AllocError>
        requires { 0 < length self.old.left }
        ensures { GivesExample self.old (Some result) self.new }
    {
        match self.example(self.alloc) {
            Ok(example) => match self.advance() {
                Ok(_) => Ok(example),
                Err(fault) => Err(fault),
            },
            Err(fault) => {
                self.end();
                Err(fault)
            }
        }
    }
}

/// The examples of the paths, one after the other. Where memory is refused, that comes in place of one, and then no more.
impl<'graph, 'g> Iterator for PathEnumerator<'graph, 'g> {
    ghost use Rattle.std.specs.Iterator.{at_most};
    ghost use Rattle.std.specs.Prelude.{length};
    ghost use Rattle.lalrpop_lane_report.specs.Enumerators.{GivesExample};

    type Item = Result<Example, AllocError>;

    ghost next_gives = { GivesExample };

    ghost remaining = { λ paths. at_most (length paths.left) };

    fn next(&mut self) -> Option<Result<Example, AllocError>> {
        if self.found_trace() {
            Some(self.give())
        } else {
            None
        }
    }
}
