//! Steps with whose trees a given terminal comes.

ghost use Rattle.std.specs.Prelude.{◌≡◌, IfOk, OnOk};
ghost use Rattle.lalrpop_grammar_symbols.specs.Views.{terminal_view};
ghost use Rattle.lalrpop_lr1_least_trees.specs.BeginForests.{IsWanted};
ghost use Rattle.lalrpop_lr1_least_trees.specs.BeginTables.{AreBeginTrees};
ghost use Rattle.lalrpop_lr1_least_trees.specs.GrammarTrees.{symbols_by};
ghost use Rattle.lalrpop_lr1_least_trees.specs.RestForests.{BeginsWith};
ghost use Rattle.lalrpop_lr1_paths.specs.CompletionSearches.{AreWantedSteps, IsAnyCompletion};
ghost use Rattle.lalrpop_lr1_paths.specs.StepMoves.{AddsStepIf};
ghost use Rattle.lalrpop_lr1_paths.specs.WantedGoals.{AreBeginGoals, AddsBegin};

use crate::completion_steps::CompletionStep;
use crate::completions::any_completion::AnyCompletion;
use crate::completions::step_moves::{push_found, step_at};
use crate::graph_paths::Goal;
use lalrpop_grammar_symbols::TerminalString;
use lalrpop_lr1_least_trees::TreeMove;
use lalrpop_lr1_least_trees::begin_trees::BeginTrees;
use lalrpop_lr1_least_trees::rest_trees::{begin_rest_count, begin_rest_moves};
use std::alloc::{AllocError, Global};

/// The steps with whose trees a terminal comes, and from where some way leads out.
#[derive(Drop)]
pub struct WantedSteps<'w, 't, 'g> {
    // Light completions, whatever comes on them.
    pub(crate) any: &'w AnyCompletion<'w, 't, 'g>,
    // The terminal.
    pub(crate) terminal: TerminalString,
    // The trees that begin with it.
    pub(crate) begins: BeginTrees<'t, 'g>,
    // The numbers of the steps.
    pub(crate) numbers: Vec<usize>,
    // A goal at the node of each.
    pub(crate) goals: Vec<Goal>,
}

/// Steps with goals at their nodes.
#[derive(Drop)]
pub(crate) struct BeginGoals {
    // Their numbers.
    pub(crate) numbers: Vec<usize>,
    // The goals.
    pub(crate) goals: Vec<Goal>,
}

/// Adds the step with the number, if the terminal comes with its trees, and some way leads out from there.
fn push_goal(
    any: &AnyCompletion<'_, '_, '_>,
    begins: &BeginTrees<'_, '_>,
    terminal: &TerminalString,
    step: CompletionStep<'_>,
    number: usize,
    found: &mut BeginGoals,
) -> Result<(), AllocError>
    requires any { IsAnyCompletion any.now }
    requires begins { AreBeginTrees begins.now }
    requires wanted { IsWanted (symbols_by begins.now.trees.now.table) (terminal_view terminal.now) begins.now.wanted }
    ensures { OnOk result (AddsBegin any.now begins.now.trees.now.table (terminal_view terminal.now) step.entry number found.old found.new) }
{
    let Some(behind) = any.weight(step.to) else {
        return Ok(());
    };
    let Some(count) = begin_rest_count(begins, terminal, step.rest) else {
        return Ok(());
    };
    found.numbers.push(number)?;
    found.goals.push(Goal {
        node: step.from,
        weight: behind.saturating_add(count as u64).saturating_add(1),
    })?;
    Ok(())
}

/// The steps with whose trees the terminal comes, and from where some way leads out.
fn begin_goals(
    alloc: Global,
    any: &AnyCompletion<'_, '_, '_>,
    begins: &BeginTrees<'_, '_>,
    terminal: &TerminalString,
) -> Result<BeginGoals, AllocError>
    requires any { IsAnyCompletion any.now }
    requires begins { AreBeginTrees begins.now }
    requires wanted { IsWanted (symbols_by begins.now.trees.now.table) (terminal_view terminal.now) begins.now.wanted }
    ensures { IfOk result (AreBeginGoals any.now begins.now.trees.now.table (terminal_view terminal.now)) }
{
    let steps = any.ways.steps();
    let mut found = BeginGoals {
        numbers: Vec::new(alloc),
        goals: Vec::new(alloc),
    };
    for number in 0..steps.len() {
        push_goal(
            any,
            begins,
            terminal,
            step_at(steps, number),
            number,
            &mut found,
        )?;
    }
    Ok(found)
}

impl<'w, 't, 'g> WantedSteps<'w, 't, 'g> {
    /// The steps with whose trees the terminal comes.
    ///
    /// # Errors
    ///
    /// Memory is refused.
    pub fn new(
        alloc: Global,
        any: &'w AnyCompletion<'w, 't, 'g>,
        terminal: &TerminalString,
    ) -> Result<WantedSteps<'w, 't, 'g>, AllocError>
        requires { IsAnyCompletion any.now }
        ensures steps { IfOk result AreWantedSteps }
        ensures any { IfOk result (λ steps. steps.any.now ≡ any.now) }
        ensures terminal { IfOk result (λ steps. steps.terminal ≡ terminal.now) }
    {
        let begins = BeginTrees::new(alloc, any.ways.paths().trees(), terminal)?;
        let found = begin_goals(alloc, any, &begins, terminal)?;
        let terminal = terminal.try_clone()?;
        Ok(WantedSteps {
            any,
            terminal,
            begins,
            numbers: found.numbers,
            goals: found.goals,
        })
    }

    /// Adds the moves of a step with whose trees the terminal comes: those of light trees that begin with it, and the reduction. False where
    /// there are no such trees.
    pub(crate) fn push_begin(
        &self,
        alloc: Global,
        step: CompletionStep<'g>,
        moves: &mut Vec<TreeMove<'g>>,
    ) -> Result<bool, AllocError>
        requires { AreWantedSteps self.now }
        ensures { IfOk result (AddsStepIf self.now.begins.trees.now.table (BeginsWith (terminal_view self.now.terminal)) step.entry
            moves.old.items moves.new.items) }
    {
        let found = begin_rest_moves(alloc, &self.begins, &self.terminal, step.rest)?;
        push_found(found, step.production, moves)
    }
}
