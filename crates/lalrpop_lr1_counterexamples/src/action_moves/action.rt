//! Moves that show an action.

ghost use Rattle.std.specs.Prelude.{◌≡◌, IfOk, List, Some, map, option_map, slice_get};
ghost use Rattle.lalrpop_grammar_symbols.specs.Symbols.{Text};
ghost use Rattle.lalrpop_grammar_repr.specs.declared.grammar.Grammar.{Grammar};
ghost use Rattle.lalrpop_lr1_theory.specs.States as theory;
ghost use Rattle.lalrpop_lr1_core.specs.Views.{lr_state_view};
ghost use Rattle.lalrpop_lr1_least_trees.specs.MoveViews.{tree_move_view};
ghost use Rattle.lalrpop_lr1_paths.specs.CompletionSearches.{IsAnyCompletion};
ghost use Rattle.lalrpop_lr1_counterexamples.specs.ShownMoves.{AreSteppedStates, IsNextCompletion, next_of, next_ways};
ghost use Rattle.lalrpop_lr1_counterexamples.specs.ActionMoves.{ShowsAction};

use crate::shift_positions::shift_position;
use crate::shown_moves::{AnyCompletion, NextCompletion, with_reduction, with_shift};
use lalrpop_lr1_core::{Action, State};
use lalrpop_lr1_least_trees::TreeMove;
use std::alloc::{AllocError, Global};

/// The moves of a whole tree in which the state with the number does the action, a reduction before what comes next: first those along the
/// state's path, which are given. None where nothing leads out behind it, or the state doesn't do it.
///
/// # Errors
///
/// Memory is refused.
pub fn action_moves<'g, L>(
    alloc: Global,
    next: &NextCompletion<'_, '_, '_, 'g>,
    any: &AnyCompletion<'_, '_, 'g>,
    front: &[TreeMove<'g>],
    number: usize,
    state: &State<'g, L>,
    action: &Action<'g>,
) -> Result<Option<Vec<TreeMove<'g>>>, AllocError>
    requires next { IsNextCompletion next.now }
    requires any { IsAnyCompletion any.now }
    requires ways { next_ways next.now ≡ any.now.ways.now }
    ensures { IfOk result (λ found. (g : Grammar) (s : Text) (look : L → theory.LookaheadSet) (states : List theory.State) →
        AreSteppedStates g s states any.now.ways.now → slice_get states number ≡ Some (lr_state_view look state.now) →
        ShowsAction g s states any.now.ways.now number (map tree_move_view front.now) (next_of next.now) action.now
        (option_map (λ moves. map tree_move_view moves.items) found)) }
{
    match action {
        Action::Reduce(production) => {
            let paths = any.ways().paths();
            with_reduction(alloc, next, paths, front, number, *production)
        }
        Action::Shift(terminal, _) => {
            let Some(place) = shift_position(state, terminal) else {
                return Ok(None);
            };
            with_shift(
                alloc,
                any,
                front,
                number,
                place.production,
                place.index,
                place.terminal,
                place.rest,
            )
        }
    }
}
