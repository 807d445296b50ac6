//! Light completions on which a given terminal comes next.

ghost use Rattle.std.specs.Prelude.{◌≡◌, ℕ, IfOk, List, map, option_map};
ghost use Rattle.lalrpop_grammar_symbols.specs.Symbols.{Text};
ghost use Rattle.lalrpop_grammar_symbols.specs.Views.{terminal_view};
ghost use Rattle.lalrpop_grammar_repr.specs.declared.grammar.Grammar.{Grammar};
ghost use Rattle.lalrpop_lr1_theory.specs.States.{State};
ghost use Rattle.lalrpop_lr1_paths.specs.StepMoves.{AddsWayIf};
ghost use Rattle.lalrpop_lr1_least_trees.specs.MoveViews.{tree_move_view};
ghost use Rattle.lalrpop_lr1_least_trees.specs.RestForests.{BeginsWith};
ghost use Rattle.lalrpop_lr1_paths.specs.CompletionGraphs.{AreCompletions};
ghost use Rattle.lalrpop_lr1_paths.specs.CompletionSearches.{AreWantedSteps, IsPathFrom, IsSomePath, IsWantedCompletion, TellsCompletion};

use crate::completion_steps::node_of;
use crate::completions::step_moves::{number_at, push_empties, step_at};
use crate::completions::wanted_steps::WantedSteps;
use crate::graph_paths::{GoalPath, GoalPaths};
use lalrpop_grammar_symbols::NonterminalString;
use lalrpop_lr1_least_trees::TreeMove;
use std::alloc::{AllocError, Global};

/// Light completions on which a terminal comes next.
#[derive(Drop)]
pub struct WantedCompletion<'x, 'w, 't, 'g> {
    // The steps with whose trees the terminal comes.
    pub(crate) steps: &'x WantedSteps<'w, 't, 'g>,
    // The ways that were found, up to one of these.
    pub(crate) found: GoalPaths<'x>,
}

impl<'x, 'w, 't, 'g> WantedCompletion<'x, 'w, 't, 'g> {
    /// Light completions on which the terminal of the steps comes next.
    ///
    /// # Errors
    ///
    /// Memory is refused.
    pub fn new(
        alloc: Global,
        steps: &'x WantedSteps<'w, 't, 'g>,
    ) -> Result<WantedCompletion<'x, 'w, 't, 'g>, AllocError>
        requires { AreWantedSteps steps.now }
        ensures out { IfOk result IsWantedCompletion }
        ensures steps { IfOk result (λ out. out.steps.now ≡ steps.now) }
    {
        let found = steps
            .any
            .ways
            .empty()
            .paths_to(alloc, steps.goals.as_slice())?;
        Ok(WantedCompletion { steps, found })
    }

    /// Adds the moves along the path: those before the terminal comes, those of trees that begin with it, and a completion behind these. False
    /// where there are none.
    fn push_path(
        &self,
        alloc: Global,
        path: &GoalPath,
        moves: &mut Vec<TreeMove<'g>>,
    ) -> Result<bool, AllocError>
        requires out { IsWantedCompletion self.now }
        requires path { IsSomePath self.now.found path.now }
        ensures { IfOk result (λ yes. (node : ℕ) → IsPathFrom self.now.found node path.now →
            AddsWayIf self.now.steps.now.any.now.ways.now node (BeginsWith (terminal_view self.now.steps.now.terminal)) moves.old.items
            moves.new.items yes) }
    {
        let ways = self.steps.any.ways;
        let step = step_at(
            ways.steps(),
            number_at(self.steps.numbers.as_slice(), path.goal),
        );
        if !push_empties(alloc, ways, path.edges.as_slice(), moves)? {
            return Ok(false);
        }
        if !self.steps.push_begin(alloc, step, moves)? {
            return Ok(false);
        }
        self.steps.any.push_from(alloc, step.to, moves)
    }

    /// The moves that are left behind a tree of the nonterminal in the state, out to a whole tree, whose first shift is of the terminal;
    /// none where there is no such completion.
    ///
    /// # Errors
    ///
    /// Memory is refused. It is where light trees have as many leaves and nodes as the greatest number or more.
    pub fn moves(
        &self,
        alloc: Global,
        state: usize,
        nonterminal: &NonterminalString,
    ) -> Result<Option<Vec<TreeMove<'g>>>, AllocError>
        requires { IsWantedCompletion self.now }
        ensures { IfOk result (λ found. (g : Grammar) (s : Text) (states : List State) →
            AreCompletions g s states self.now.steps.now.any.now.ways.now →
            TellsCompletion g s states self.now.steps.now.any.now.ways.now state nonterminal.now.0
            (BeginsWith (terminal_view self.now.steps.now.terminal)) (option_map (λ moves. map tree_move_view moves.items) found)) }
    {
        let ways = self.steps.any.ways;
        let Some(node) = node_of(ways.paths(), state, nonterminal)? else {
            return Ok(None);
        };
        let Some(path) = self.found.path(alloc, node)? else {
            return Ok(None);
        };
        let mut moves = Vec::new(alloc);
        if self.push_path(alloc, &path, &mut moves)? {
            Ok(Some(moves))
        } else {
            Ok(None)
        }
    }

    /// How many moves `moves` gives; the greatest number where they are as many or more. None where no way leads out.
    ///
    /// # Errors
    ///
    /// Memory is refused.
    pub fn count(
        &self,
        state: usize,
        nonterminal: &NonterminalString,
    ) -> Result<Option<u64>, AllocError>
        requires { IsWantedCompletion self.now }
    {
        let Some(node) = node_of(self.steps.any.ways.paths(), state, nonterminal)? else {
            return Ok(None);
        };
        Ok(self.found.weight(node))
    }
}
