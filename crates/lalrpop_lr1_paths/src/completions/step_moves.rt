//! Moves of steps, one after the other.

ghost use Rattle.std.specs.Prelude.{◌≡◌, ◌<◌, IfOk, Some, false, length, option_map, slice_get, true};
ghost use Rattle.lalrpop_lr1_least_trees.specs.GrammarTrees.{AreLeastTrees};
ghost use Rattle.lalrpop_lr1_least_trees.specs.RestForests.{AnyLeaves, NoLeaves};
ghost use Rattle.lalrpop_lr1_paths.specs.CompletionGraphs.{AreCompletionGraphs};
ghost use Rattle.lalrpop_lr1_paths.specs.StepMoves.{AddsAlongIf, AddsFoundIf, AddsStepIf, AreGraphEdges, step_edges};

use crate::completion_steps::{CompletionGraphs, CompletionStep};
use lalrpop_grammar_repr::Production;
use lalrpop_lr1_least_trees::rest_trees::{empty_rest_moves, rest_moves};
use lalrpop_lr1_least_trees::{LeastTrees, TreeMove};
use std::alloc::{AllocError, Global};

/// Adds the moves, and the reduction behind them; false where there are none.
pub(crate) fn push_found<'g>(
    found: Option<Vec<TreeMove<'g>>>,
    production: &'g Production,
    moves: &mut Vec<TreeMove<'g>>,
) -> Result<bool, AllocError>
    ensures { IfOk result (AddsFoundIf (option_map (λ more. more.items) found.entry) production.entry moves.old.items moves.new.items) }
{
    match found {
        None => Ok(false),
        Some(mut more) => {
            moves.append(&mut more)?;
            moves.push(TreeMove::Reduce(production))?;
            Ok(true)
        }
    }
}

/// Adds the moves of a step: those of light trees for what stands behind its nonterminal, and the reduction. False where that has no
/// trees.
fn push_any<'g>(
    alloc: Global,
    trees: &LeastTrees<'g>,
    step: CompletionStep<'g>,
    moves: &mut Vec<TreeMove<'g>>,
) -> Result<bool, AllocError>
    requires { AreLeastTrees trees.now }
    ensures { IfOk result (AddsStepIf trees.now.table AnyLeaves step.entry moves.old.items moves.new.items) }
{
    let found = rest_moves(alloc, trees, step.rest)?;
    push_found(found, step.production, moves)
}

/// Adds the moves of a step behind whose nonterminal nothing comes: those of light trees without leaves, and the reduction. False where
/// there are no such trees.
fn push_empty<'g>(
    alloc: Global,
    trees: &LeastTrees<'g>,
    step: CompletionStep<'g>,
    moves: &mut Vec<TreeMove<'g>>,
) -> Result<bool, AllocError>
    requires { AreLeastTrees trees.now }
    ensures { IfOk result (AddsStepIf trees.now.table NoLeaves step.entry moves.old.items moves.new.items) }
{
    let found = empty_rest_moves(alloc, trees, step.rest)?;
    push_found(found, step.production, moves)
}

/// The number at the place.
pub(crate) fn number_at(numbers: &[usize], place: usize) -> usize
    requires { place < length numbers.now }
    ensures { slice_get numbers.now place ≡ Some result }
{
    numbers[place]
}

/// The step with the number.
pub(crate) fn step_at<'g>(steps: &[CompletionStep<'g>], number: usize) -> CompletionStep<'g>
    requires { number < length steps.now }
    ensures { slice_get steps.now number ≡ Some result }
{
    steps[number]
}

/// Adds the moves of the steps over these edges of the graph of all steps, in order; false where some has none.
pub(crate) fn push_anys<'g>(
    alloc: Global,
    ways: &CompletionGraphs<'_, 'g>,
    edges: &[usize],
    moves: &mut Vec<TreeMove<'g>>,
) -> Result<bool, AllocError>
    requires graphs { AreCompletionGraphs ways.now }
    requires edges { AreGraphEdges (step_edges ways.now true) edges.now }
    ensures { IfOk result (AddsAlongIf ways.now true edges.now moves.old.items moves.new.items) }
{
    let steps = ways.steps();
    let trees = ways.paths().trees();
    for edge in edges {
        if !push_any(alloc, trees, step_at(steps, *edge), moves)? {
            return Ok(false);
        }
    }
    Ok(true)
}

/// Adds the moves of the steps over these edges of the graph of empty steps, in order; false where some has none.
pub(crate) fn push_empties<'g>(
    alloc: Global,
    ways: &CompletionGraphs<'_, 'g>,
    edges: &[usize],
    moves: &mut Vec<TreeMove<'g>>,
) -> Result<bool, AllocError>
    requires graphs { AreCompletionGraphs ways.now }
    requires edges { AreGraphEdges (step_edges ways.now false) edges.now }
    ensures { IfOk result (AddsAlongIf ways.now false edges.now moves.old.items moves.new.items) }
{
    let steps = ways.steps();
    let empties = ways.empties();
    let trees = ways.paths().trees();
    for edge in edges {
        let step = step_at(steps, number_at(empties, *edge));
        if !push_empty(alloc, trees, step, moves)? {
            return Ok(false);
        }
    }
    Ok(true)
}
