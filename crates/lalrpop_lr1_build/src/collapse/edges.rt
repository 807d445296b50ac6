//! Edges to the states that others are put into.

ghost use Rattle.std.specs.Prelude.{◌≡◌, ◌<◌, All, IfOk, length, map};
ghost use Rattle.lalrpop_lr1_build.specs.Renumbering.{renumber};

use lalrpop_grammar_repr::{Map, TryClone};
use lalrpop_lr1_core::StateIndex;
use std::alloc::{AllocError, Global};

/// The edges, each to the state with the number of its target: the number that stands at the target's place.
///
/// # Errors
///
/// Memory is refused.
pub fn renumber_edges<K: Ord + Drop + TryClone>(
    alloc: Global,
    edges: &Map<K, StateIndex>,
    numbers: &[usize],
) -> Result<Map<K, StateIndex>, AllocError>
    requires { All (λ e. e.1.0 < length numbers.now) edges.now }
    ensures { IfOk result (λ renumbered. renumbered ≡ map (renumber numbers.now) edges.now) }
{
    let mut renumbered = Map::new(alloc);
    for (key, target) in edges.iter() {
        renumbered.insert(key.try_clone_in(alloc)?, StateIndex(numbers[target.0]))?;
    }
    Ok(renumbered)
}
