//! Directed graphs whose edges have weights.

ghost use Rattle.std.specs.Prelude.{◌≡◌, ℕ, IfOk, OnOk};
ghost use Rattle.lalrpop_lr1_paths.specs.Graphs.{AddsEntering, IsGraph, edges_at, entering_from, graph_edges, graph_node_count};
ghost use Rattle.lalrpop_lr1_paths.specs.GraphPaths.{EdgesAreBelow};

use std::alloc::{AllocError, Global};
use std::collections::HashMap;

/// An edge: it leads from a node to a node.
#[derive(Clone, Copy)]
pub struct Edge {
    /// The node from which it leads.
    pub from: usize,
    /// The node to which it leads.
    pub to: usize,
    /// How much it weighs.
    pub weight: u64,
}

/// Where a path may end.
#[derive(Clone, Copy)]
pub struct Goal {
    /// The node.
    pub node: usize,
    /// How much it weighs to end there.
    pub weight: u64,
}

/// A directed graph. Its nodes are the numbers below a count; those from which no edge leads, and to which none does, take no memory.
#[derive(Drop)]
pub struct Graph {
    // How many nodes there are.
    pub(crate) nodes: usize,
    // The edges.
    pub(crate) edges: Vec<Edge>,
    // For each node to which edges lead, their numbers.
    pub(crate) entering: HashMap<usize, Vec<usize>>,
}

/// Adds the edge to those that lead to the node.
fn add_entering(
    alloc: Global,
    lists: &mut HashMap<usize, Vec<usize>>,
    node: usize,
    number: usize,
) -> Result<(), AllocError>
    ensures { OnOk result (AddsEntering node number (edges_at lists.old) (edges_at lists.new)) }
{
    if let Some(list) = lists.get_mut(&node) {
        list.push(number)?;
        return Ok(());
    }
    let mut list = Vec::new(alloc);
    list.push(number)?;
    lists.insert(node, list)?;
    Ok(())
}

/// For each node to which edges lead, their numbers.
fn entering_edges(alloc: Global, edges: &[Edge]) -> Result<HashMap<usize, Vec<usize>>, AllocError>
    ensures { IfOk result (λ lists. (n : ℕ) → edges_at lists n ≡ entering_from 0 edges.now n) }
{
    let mut lists = HashMap::new(alloc);
    for number in 0..edges.len() {
        add_entering(alloc, &mut lists, edges[number].to, number)?;
    }
    Ok(lists)
}

impl Graph {
    /// The graph with so many nodes and these edges, each from one of the nodes to one of them.
    ///
    /// # Errors
    ///
    /// Memory is refused.
    pub fn new(alloc: Global, nodes: usize, edges: Vec<Edge>) -> Result<Graph, AllocError>
        requires { EdgesAreBelow nodes edges.items }
        ensures graph { IfOk result IsGraph }
        ensures edges { IfOk result (λ graph. graph_edges graph ≡ edges.items) }
        ensures nodes { IfOk result (λ graph. graph_node_count graph ≡ nodes) }
    {
        let entering = entering_edges(alloc, edges.as_slice())?;
        Ok(Graph {
            nodes,
            edges,
            entering,
        })
    }

    /// The numbers of the edges that lead to the node.
    pub(crate) fn entering(&self, node: usize) -> &[usize]
        ensures { result.now ≡ edges_at self.now.entering node }
    {
        match self.entering.get(&node) {
            Some(list) => list.as_slice(),
            None => &[],
        }
    }

    /// How many nodes it has.
    pub fn node_count(&self) -> usize
        ensures { result ≡ graph_node_count self.now }
    {
        self.nodes
    }

    /// Its edges.
    pub fn edges(&self) -> &[Edge]
        ensures { result.now ≡ graph_edges self.now }
    {
        self.edges.as_slice()
    }
}
