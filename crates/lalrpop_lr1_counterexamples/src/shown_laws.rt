//! Laws of counterexamples: trees can be made of their moves, and these trees make the move that a certificate asks for.
//!
//! The module has no code but laws; `ShownLaws` in `specs/` says what they say.

ghost use Rattle.lalrpop_lr1_counterexamples.specs.ShownLaws.{ShownMovesCanBeMade, ShownTreesMakeTheMove};

/// The law that moves which show a move, and those on the path before it, can be made to trees.
pub fn shown_moves_can_be_made()
    ensures { ShownMovesCanBeMade }
{}

/// The law that the trees which are made of them make the move behind the shared trees.
pub fn shown_trees_make_the_move()
    ensures { ShownTreesMakeTheMove }
{}

pub use crate::shown_moves::{
    AnyCompletion, CompletionGraphs, EndCompletion, NextCompletion, WantedCompletion, WantedSteps,
    rest_count,
};
pub use lalrpop_lr1_least_trees::made_trees::{made_trees, only_tree};
