//! The paths that a search has found.

ghost use Rattle.std.specs.Prelude.{◌≡◌, ◌∷◌, ◌++◌, [], ℕ, None, OnOk, length};
ghost use Rattle.lalrpop_lr1_paths.specs.PathSearches.{AddsNumber, path_numbers};

use std::alloc::{AllocError, Global};
use std::collections::HashMap;

/// How a path begins.
#[derive(Clone, Copy, PartialEq, Eq, PartialOrd, Ord)]
pub(crate) enum PathStep {
    /// It ends at once, at the goal with this number.
    AtGoal(usize),
    /// It goes over an edge.
    OverEdge {
        /// The number of the edge.
        edge: usize,
        /// The number of the path that follows.
        rest: usize,
    },
}

/// A lightest path from a node.
#[derive(Clone, Copy, PartialEq, Eq, PartialOrd, Ord)]
pub(crate) struct LightPath {
    /// How much its edges and its goal weigh; the greatest number where they weigh more.
    pub(crate) weight: u64,
    /// How it begins.
    pub(crate) step: PathStep,
}

/// Lightest paths, no more than one from each node.
#[derive(Drop)]
pub(crate) struct PathTable {
    // For each node from which a path was found, its number.
    pub(crate) numbers: HashMap<usize, usize>,
    // The paths, in the order in which they were found. So a path's rest has a smaller number than the path.
    pub(crate) paths: Vec<LightPath>,
}

impl PathTable {
    /// The table in which no node has a path.
    pub(crate) fn new(alloc: Global) -> PathTable
        ensures none { (n : ℕ) → path_numbers result n ≡ None }
        ensures empty { length result.paths.items ≡ 0 }
    {
        PathTable {
            numbers: HashMap::new(alloc),
            paths: Vec::new(alloc),
        }
    }

    /// The number of the path from the node; none where it has none.
    pub(crate) fn number_of(&self, node: usize) -> Option<usize>
        ensures { result ≡ path_numbers self.now node }
    {
        self.numbers.get(&node).copied()
    }

    /// Keeps the path as its node's, which had none.
    pub(crate) fn keep(&mut self, node: usize, path: LightPath) -> Result<(), AllocError>
        ensures number { OnOk result (AddsNumber (path_numbers self.old) (path_numbers self.new) node (length self.old.paths.items)) }
        ensures paths { OnOk result (self.new.paths.items ≡ self.old.paths.items ++ path ∷ []) }
    {
        self.numbers.insert(node, self.paths.len())?;
        self.paths.push(path)?;
        Ok(())
    }
}
