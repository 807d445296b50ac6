//! Paths that wait to be looked at, the lightest first.

ghost use Rattle.std.specs.Prelude.{◌<◌, ℕ, Contains, IfOk, OnOk, length};
ghost use Rattle.std.specs.BinaryHeap.{heap_items};
ghost use Rattle.lalrpop_lr1_paths.specs.PathSearches.{AddsEdges, AreGoalEntries};

use crate::graph_paths::graph::{Edge, Goal};
use crate::graph_paths::path_table::{LightPath, PathStep};
use std::alloc::{AllocError, Global};
use std::cmp::Reverse;
use std::collections::BinaryHeap;

/// A path, and the node from which it leads.
#[derive(Clone, Copy, PartialEq, Eq, PartialOrd, Ord)]
pub(crate) struct Entry {
    /// The path.
    pub(crate) path: LightPath,
    /// The node.
    pub(crate) node: usize,
}

/// An entry for each goal: the path that ends there at once.
pub(crate) fn goal_entries(
    alloc: Global,
    goals: &[Goal],
) -> Result<BinaryHeap<Reverse<Entry>>, AllocError>
    ensures { IfOk result (λ waiting. AreGoalEntries goals.now (heap_items waiting)) }
{
    let mut waiting = BinaryHeap::new(alloc);
    for number in 0..goals.len() {
        let goal = goals[number];
        let path = LightPath {
            weight: goal.weight,
            step: PathStep::AtGoal(number),
        };
        waiting.push(Reverse(Entry {
            path,
            node: goal.node,
        }))?;
    }
    Ok(waiting)
}

/// Adds an entry for each edge with one of these numbers: the path that goes over it, and on as the path with the number `rest`.
pub(crate) fn push_edges(
    waiting: &mut BinaryHeap<Reverse<Entry>>,
    edges: &[Edge],
    entering: &[usize],
    rest: usize,
    rest_weight: u64,
) -> Result<(), AllocError>
    requires { (e : ℕ) → Contains entering.now e → e < length edges.now }
    ensures { OnOk result (AddsEdges edges.now entering.now rest rest_weight (heap_items waiting.old) (heap_items waiting.new)) }
{
    for number in entering {
        let edge = edges[*number];
        let path = LightPath {
            weight: rest_weight.saturating_add(edge.weight),
            step: PathStep::OverEdge {
                edge: *number,
                rest,
            },
        };
        waiting.push(Reverse(Entry {
            path,
            node: edge.from,
        }))?;
    }
    Ok(())
}
