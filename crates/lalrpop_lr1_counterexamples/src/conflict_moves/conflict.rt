//! Moves that show a conflict.

ghost use Rattle.std.specs.Prelude.{◌≡◌, IfOk, List, Some, slice_get};
ghost use Rattle.lalrpop_grammar_symbols.specs.Symbols.{Text};
ghost use Rattle.lalrpop_grammar_repr.specs.declared.grammar.Grammar.{Grammar};
ghost use Rattle.lalrpop_lr1_theory.specs.States as theory;
ghost use Rattle.lalrpop_lr1_core.specs.Views.{lr_state_view};
ghost use Rattle.lalrpop_lr1_paths.specs.CompletionSearches.{IsAnyCompletion};
ghost use Rattle.lalrpop_lr1_counterexamples.specs.ShownMoves.{AreSteppedStates, IsNextCompletion, next_of, next_ways};
ghost use Rattle.lalrpop_lr1_counterexamples.specs.ConflictMoves.{HasFinishedItem, ShowConflict};

use crate::action_moves::{AnyCompletion, NextCompletion, action_moves, with_reduction};
use lalrpop_lr1_core::{Conflict, State};
use lalrpop_lr1_least_trees::TreeMove;
use std::alloc::{AllocError, Global};

/// The moves that show a conflict.
#[derive(Drop)]
pub struct ConflictMoves<'g> {
    /// Those of the trees that both sentences have in common.
    pub shared: Vec<TreeMove<'g>>,
    /// All moves of the tree in which the reduction is done.
    pub reducing: Vec<TreeMove<'g>>,
    /// All moves of the tree in which the other action is done.
    pub other: Vec<TreeMove<'g>>,
}

/// The moves that show the conflict of the state with the number, before what comes next. None where some of them aren't there.
///
/// # Errors
///
/// Memory is refused. It is where a tree has as many leaves and nodes as the greatest number or more.
pub fn conflict_moves<'g, L>(
    alloc: Global,
    next: &NextCompletion<'_, '_, '_, 'g>,
    any: &AnyCompletion<'_, '_, 'g>,
    number: usize,
    state: &State<'g, L>,
    conflict: &Conflict<'g, L>,
) -> Result<Option<ConflictMoves<'g>>, AllocError>
    requires next { IsNextCompletion next.now }
    requires any { IsAnyCompletion any.now }
    requires ways { next_ways next.now ≡ any.now.ways.now }
    ensures { IfOk result (λ found. (g : Grammar) (s : Text) (look : L → theory.LookaheadSet) (states : List theory.State) →
        AreSteppedStates g s states any.now.ways.now → slice_get states number ≡ Some (lr_state_view look state.now) →
        HasFinishedItem states number conflict.now.production.now →
        ShowConflict g s states any.now.ways.now number (next_of next.now) conflict.now found) }
{
    let paths = any.ways().paths();
    let Some(shared) = paths.moves(alloc, number)? else {
        return Ok(None);
    };
    let front = shared.as_slice();
    let Some(reducing) = with_reduction(alloc, next, paths, front, number, conflict.production)?
    else {
        return Ok(None);
    };
    let Some(other) = action_moves(alloc, next, any, front, number, state, &conflict.action)? else {
        return Ok(None);
    };
    Ok(Some(ConflictMoves {
        shared,
        reducing,
        other,
    }))
}
