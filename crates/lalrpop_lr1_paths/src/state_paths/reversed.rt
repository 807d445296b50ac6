//! The graph of the edges turned round, whose paths lead back to state 0.

ghost use Rattle.std.specs.Prelude.{◌≡◌, IfOk, map};
ghost use Rattle.lalrpop_lr1_paths.specs.GraphPaths.{EdgesAreBelow, GoalsAreBelow};
ghost use Rattle.lalrpop_lr1_paths.specs.Graphs.{IsGraph, graph_edges, graph_node_count};
ghost use Rattle.lalrpop_lr1_paths.specs.PathSearches.{AreGoalPaths};
ghost use Rattle.lalrpop_lr1_least_trees.specs.GrammarTrees.{AreLeastTrees};
ghost use Rattle.lalrpop_lr1_paths.specs.NumberEdges.{AreBetweenStates};
ghost use Rattle.lalrpop_lr1_paths.specs.ReversedGraphs.{AreLastEdges, edge_ends, last_edge_of, start_goals, reversed_ends};

use crate::graph_paths::{Edge, Goal, GoalPaths, Graph};
use crate::state_paths::path_edges::NumberEdge;
use lalrpop_lr1_least_trees::LeastTrees;
use std::alloc::{AllocError, Global};

/// How much an edge by the symbol weighs: as much as its least tree has leaves and nodes, and the greatest number where it has no tree.
pub(crate) fn symbol_weight(trees: &LeastTrees<'_>, symbol: usize) -> u64
    requires { AreLeastTrees trees.now }
{
    let names = trees.table().names();
    if symbol >= names.len() {
        return 1;
    }
    match trees.count(names[symbol]) {
        Some(count) => count as u64,
        None => u64::MAX,
    }
}

/// The edge turned round.
fn reversed_edge(trees: &LeastTrees<'_>, edge: NumberEdge) -> Edge
    requires { AreLeastTrees trees.now }
    ensures { edge_ends result ≡ reversed_ends edge }
{
    Edge {
        from: edge.target,
        to: edge.source,
        weight: symbol_weight(trees, edge.symbol),
    }
}

/// The edges turned round.
fn reversed_edges(
    alloc: Global,
    trees: &LeastTrees<'_>,
    edges: &[NumberEdge],
) -> Result<Vec<Edge>, AllocError>
    requires { AreLeastTrees trees.now }
    ensures { IfOk result (λ reversed. map edge_ends reversed.items ≡ map reversed_ends edges.now) }
{
    let mut reversed = Vec::new(alloc);
    for edge in edges {
        reversed.push(reversed_edge(trees, *edge))?;
    }
    Ok(reversed)
}

/// The graph of the edges turned round, with so many states.
fn reversed_graph(
    alloc: Global,
    trees: &LeastTrees<'_>,
    states: usize,
    edges: &[NumberEdge],
) -> Result<Graph, AllocError>
    requires trees { AreLeastTrees trees.now }
    requires edges { AreBetweenStates states edges.now }
    ensures graph { IfOk result IsGraph }
    ensures edges { IfOk result (λ graph. map edge_ends (graph_edges graph) ≡ map reversed_ends edges.now) }
    ensures nodes { IfOk result (λ graph. graph_node_count graph ≡ states) }
{
    let reversed = reversed_edges(alloc, trees, edges)?;
    let graph = Graph::new(alloc, states, reversed)?;
    Ok(graph)
}

/// State 0 as the goal of paths, if there are states.
fn start_goal(alloc: Global, states: usize) -> Result<Vec<Goal>, AllocError>
    ensures { IfOk result (λ goals. goals.items ≡ start_goals states) }
{
    let mut goals = Vec::new(alloc);
    if states > 0 {
        goals.push(Goal { node: 0, weight: 0 })?;
    }
    Ok(goals)
}

/// The edge with which the state's path back begins; none of state 0.
fn last_edge(edges: &[NumberEdge], paths: &GoalPaths<'_>, state: usize) -> Option<NumberEdge>
    requires { AreGoalPaths paths.now }
    ensures { result ≡ last_edge_of edges.now paths.now state }
{
    if state == 0 {
        return None;
    }
    let number = paths.first_edge(state)?;
    Some(*edges.get(number)?)
}

/// For each of so many states the edge with which its path back begins.
fn last_edges(
    alloc: Global,
    states: usize,
    edges: &[NumberEdge],
    paths: &GoalPaths<'_>,
) -> Result<Vec<Option<NumberEdge>>, AllocError>
    requires { AreGoalPaths paths.now }
    ensures { IfOk result (λ steps. AreLastEdges edges.now paths.now states steps.items) }
{
    let mut steps = Vec::with_capacity(alloc, states)?;
    for state in 0..states {
        steps.push(last_edge(edges, paths, state))?;
    }
    Ok(steps)
}

/// For each of so many states the last edge of its path, which is a lightest one from state 0 over these edges.
pub(crate) fn last_path_edges(
    alloc: Global,
    trees: &LeastTrees<'_>,
    states: usize,
    edges: &[NumberEdge],
) -> Result<Vec<Option<NumberEdge>>, AllocError>
    requires trees { AreLeastTrees trees.now }
    requires edges { AreBetweenStates states edges.now }
    ensures { IfOk result (λ steps. (paths : _) × AreGoalPaths paths
        × (map edge_ends (graph_edges paths.graph.now) ≡ map reversed_ends edges.now) × (paths.goals.now ≡ start_goals states)
        × AreLastEdges edges.now paths states steps.items) }
{
    let goals = start_goal(alloc, states)?;
    let graph = reversed_graph(alloc, trees, states, edges)?;
    let paths = graph.paths_to(alloc, goals.as_slice())?;
    let steps = last_edges(alloc, states, edges, &paths)?;
    Ok(steps)
}
