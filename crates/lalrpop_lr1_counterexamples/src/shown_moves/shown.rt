//! Moves of whole trees behind the path to a state.

ghost use Rattle.std.specs.Prelude.{◌≡◌, ◌++◌, ◌∷◌, IfOk, List, drop, length, map, option_map};
ghost use Rattle.lalrpop_grammar_symbols.specs.Symbols.{Text};
ghost use Rattle.lalrpop_grammar_symbols.specs.Views.{terminal_view};
ghost use Rattle.lalrpop_grammar_repr.specs.declared.grammar.Grammar.{Grammar};
ghost use Rattle.lalrpop_lr1_theory.specs.Productions.{terminal as leaf_symbol};
ghost use Rattle.lalrpop_lr1_theory.specs.States.{HasItem, State};
ghost use Rattle.lalrpop_lr1_core.specs.Views.{production_symbol_view, production_view};
ghost use Rattle.lalrpop_lr1_least_trees.specs.MoveViews.{tree_move_view};
ghost use Rattle.lalrpop_lr1_paths.specs.CompletionSearches.{IsAnyCompletion};
ghost use Rattle.lalrpop_lr1_counterexamples.specs.ShownMoves.{AreSteppedStates, IsNextCompletion, ShowsReduction, ShowsShift, next_of, next_ways};

use crate::shown_moves::next_completion::NextCompletion;
use lalrpop_grammar_repr::{Production, Symbol};
use lalrpop_grammar_symbols::TerminalString;
use lalrpop_lr1_least_trees::TreeMove;
use lalrpop_lr1_paths::completions::{AnyCompletion, StatePaths, rest_moves};
use std::alloc::{AllocError, Global};

/// These moves, then the one, then the others.
fn joined_moves<'g>(
    alloc: Global,
    front: &[TreeMove<'g>],
    middle: TreeMove<'g>,
    mut more: Vec<TreeMove<'g>>,
) -> Result<Vec<TreeMove<'g>>, AllocError>
    ensures { IfOk result (λ all. all.items ≡ front.now ++ middle.entry ∷ more.entry.items) }
{
    let mut all = Vec::new(alloc);
    for tree_move in front {
        all.push(*tree_move)?;
    }
    all.push(middle)?;
    all.append(&mut more)?;
    Ok(all)
}

/// The moves of a whole tree in which the state reduces by the production before what comes next: first those along the state's path,
/// which are given. None where nothing that comes so leads out behind the reduction.
///
/// # Errors
///
/// Memory is refused.
pub fn with_reduction<'g>(
    alloc: Global,
    next: &NextCompletion<'_, '_, '_, 'g>,
    paths: &StatePaths<'_, 'g>,
    front: &[TreeMove<'g>],
    state: usize,
    production: &'g Production,
) -> Result<Option<Vec<TreeMove<'g>>>, AllocError>
    requires next { IsNextCompletion next.now }
    requires paths { (next_ways next.now).paths.now ≡ paths.now }
    ensures { IfOk result (λ found. (g : Grammar) (s : Text) (states : List State) → AreSteppedStates g s states (next_ways next.now) →
        HasItem states state (production_view production.now) (length (production_view production.now).right) →
        ShowsReduction g s states (next_ways next.now) state (production_view production.now) (map tree_move_view front.now) (next_of next.now)
        (option_map (λ moves. map tree_move_view moves.items) found)) }
{
    let before = paths.back(state, production.symbols.len());
    match next.moves(alloc, before, &production.nonterminal)? {
        None => Ok(None),
        Some(out) => {
            let all = joined_moves(alloc, front, TreeMove::Reduce(production), out)?;
            Ok(Some(all))
        }
    }
}

/// The moves of a whole tree in which the state shifts the terminal by an item of the production, whose dot stands behind so many symbols and
/// before the terminal, with the rest behind that: first those along the state's path, which are given. None where the rest has no trees, or
/// nothing leads out.
///
/// # Errors
///
/// Memory is refused.
pub fn with_shift<'g>(
    alloc: Global,
    any: &AnyCompletion<'_, '_, 'g>,
    front: &[TreeMove<'g>],
    state: usize,
    production: &'g Production,
    index: usize,
    terminal: &'g TerminalString,
    rest: &'g [Symbol],
) -> Result<Option<Vec<TreeMove<'g>>>, AllocError>
    requires { IsAnyCompletion any.now }
    ensures { IfOk result (λ found. (g : Grammar) (s : Text) (states : List State) → AreSteppedStates g s states any.now.ways.now →
        HasItem states state (production_view production.now) index →
        drop index (production_view production.now).right ≡ leaf_symbol (terminal_view terminal.now) ∷ map production_symbol_view rest.now →
        ShowsShift g s states any.now.ways.now state (production_view production.now) index (map production_symbol_view rest.now)
        (map tree_move_view front.now) (terminal_view terminal.now) (option_map (λ moves. map tree_move_view moves.items) found)) }
{
    let paths = any.ways().paths();
    let before = paths.back(state, index);
    let Some(inner) = rest_moves(alloc, paths.trees(), rest)? else {
        return Ok(None);
    };
    let Some(out) = any.moves(alloc, before, &production.nonterminal)? else {
        return Ok(None);
    };
    let more = joined_moves(alloc, inner.as_slice(), TreeMove::Reduce(production), out)?;
    let all = joined_moves(alloc, front, TreeMove::Shift(terminal), more)?;
    Ok(Some(all))
}
