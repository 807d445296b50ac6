//! Light paths of a graph.

ghost use Rattle.std.specs.Prelude.{◌≡◌, ◌⊎◌, IfOk, OnOk};
ghost use Rattle.std.specs.BinaryHeap.{heap_items};
ghost use Rattle.lalrpop_lr1_paths.specs.GraphPaths.{GoalsAreBelow, HasPathIfSome, IsPathIfSome, weight_if_some};
ghost use Rattle.lalrpop_lr1_paths.specs.Graphs.{IsGraph, edges_at, graph_edges, graph_node_count};
ghost use Rattle.lalrpop_lr1_paths.specs.PathSearches.{
  AreGoalPaths,
  KeepsPath,
  PassesPath,
  found_first_edge,
  found_weight,
  path_numbers,
};

use crate::graph_paths::graph::{Goal, Graph};
use crate::graph_paths::path_table::{PathStep, PathTable};
use crate::graph_paths::waiting::{Entry, goal_entries, push_edges};
use std::alloc::{AllocError, Global};
use std::cmp::Reverse;
use std::collections::BinaryHeap;

/// How a path goes.
#[derive(Drop)]
pub struct GoalPath {
    /// The numbers of its edges, in order.
    pub edges: Vec<usize>,
    /// The number of the goal at which it ends.
    pub goal: usize,
}

/// Lightest paths of a graph, from each node to one of some goals.
///
/// A path weighs as much as its edges and its goal together, and the greatest number where that is more. Of the paths that lead from a
/// node to goals, one that is lightest is kept.
#[derive(Drop)]
pub struct GoalPaths<'a> {
    // The graph.
    pub(crate) graph: &'a Graph,
    // The goals.
    pub(crate) goals: &'a [Goal],
    // The paths.
    pub(crate) table: PathTable,
}

/// Keeps the path as its node's, where it has none yet. Paths over the edges that lead to the node are then added to those that wait.
fn settle(
    graph: &Graph,
    table: &mut PathTable,
    waiting: &mut BinaryHeap<Reverse<Entry>>,
    entry: Entry,
) -> Result<(), AllocError>
    requires { IsGraph graph.now }
    ensures { OnOk result (PassesPath entry table.old table.new (heap_items waiting.old) (heap_items waiting.new)
        ⊎ KeepsPath (graph_edges graph.now) (edges_at graph.now.entering) entry table.old table.new
        (heap_items waiting.old) (heap_items waiting.new)) }
{
    if table.number_of(entry.node).is_some() {
        return Ok(());
    }
    let number = table.paths.len();
    table.keep(entry.node, entry.path)?;
    push_edges(
        waiting,
        graph.edges.as_slice(),
        graph.entering(entry.node),
        number,
        entry.path.weight,
    )
}

impl Graph {
    /// Lightest paths to the goals, each at one of the graph's nodes.
    ///
    /// # Errors
    ///
    /// Memory is refused.
    pub fn paths_to<'a>(
        &'a self,
        alloc: Global,
        goals: &'a [Goal],
    ) -> Result<GoalPaths<'a>, AllocError>
        requires graph { IsGraph self.now }
        requires goals { GoalsAreBelow (graph_node_count self.now) goals.now }
        ensures paths { IfOk result AreGoalPaths }
        ensures graph { IfOk result (λ paths. paths.graph.now ≡ self.now) }
        ensures goals { IfOk result (λ paths. paths.goals.now ≡ goals.now) }
    {
        let mut table = PathTable::new(alloc);
        let mut waiting = goal_entries(alloc, goals)?;
        while let Some(Reverse(entry)) = waiting.pop() {
            settle(self, &mut table, &mut waiting, entry)?;
        }
        Ok(GoalPaths {
            graph: self,
            goals,
            table,
        })
    }
}

impl GoalPaths<'_> {
    /// The number of the path from the node; none where there is no path.
    fn number_of(&self, node: usize) -> Option<usize>
        ensures { result ≡ path_numbers self.now.table node }
    {
        self.table.number_of(node)
    }

    /// How much the path weighs that `path` gives; none where there is no path.
    pub fn weight(&self, node: usize) -> Option<u64>
        requires { AreGoalPaths self.now }
        ensures path { HasPathIfSome (graph_edges self.now.graph.now) self.now.goals.now node result }
        ensures weight { result ≡ found_weight self.now node }
    {
        let number = self.number_of(node)?;
        Some(self.table.paths[number].weight)
    }

    /// The number of the edge with which the path begins that `path` gives; none where it ends at once, and where there is no path.
    pub fn first_edge(&self, node: usize) -> Option<usize>
        requires { AreGoalPaths self.now }
        ensures { result ≡ found_first_edge self.now node }
    {
        let number = self.number_of(node)?;
        match self.table.paths[number].step {
            PathStep::AtGoal(_) => None,
            PathStep::OverEdge { edge, .. } => Some(edge),
        }
    }

    /// A lightest path from the node to a goal; none where there is no path.
    ///
    /// # Errors
    ///
    /// Memory is refused.
    pub fn path(&self, alloc: Global, node: usize) -> Result<Option<GoalPath>, AllocError>
        requires { AreGoalPaths self.now }
        ensures path { IfOk result (IsPathIfSome (graph_edges self.now.graph.now) self.now.goals.now node) }
        ensures weight { IfOk result (λ path. weight_if_some (graph_edges self.now.graph.now) self.now.goals.now path
            ≡ found_weight self.now node) }
    {
        let Some(first) = self.number_of(node) else {
            return Ok(None);
        };
        let mut edges = Vec::new(alloc);
        let mut number = first;
        loop {
            match self.table.paths[number].step {
                PathStep::AtGoal(goal) => return Ok(Some(GoalPath { edges, goal })),
                PathStep::OverEdge { edge, rest } => {
                    edges.push(edge)?;
                    number = rest;
                }
            }
        }
    }
}
