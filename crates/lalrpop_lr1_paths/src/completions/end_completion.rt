//! Light completions on which no terminal comes.

ghost use Rattle.std.specs.Prelude.{◌≡◌, ◌<◌, IfOk, OnOk, length, map, option_map, List};
ghost use Rattle.lalrpop_grammar_symbols.specs.Symbols.{Text};
ghost use Rattle.lalrpop_grammar_repr.specs.declared.grammar.Grammar.{Grammar};
ghost use Rattle.lalrpop_lr1_theory.specs.States.{State};
ghost use Rattle.lalrpop_lr1_least_trees.specs.MoveViews.{tree_move_view};
ghost use Rattle.lalrpop_lr1_least_trees.specs.RestForests.{NoLeaves};
ghost use Rattle.lalrpop_lr1_paths.specs.CompletionGraphs.{AreCompletionGraphs, AreCompletions};
ghost use Rattle.lalrpop_lr1_paths.specs.CompletionSearches.{IsEndCompletion, TellsCompletion};

use crate::completion_steps::{CompletionGraphs, node_of};
use crate::completions::step_moves::push_empties;
use crate::graph_paths::GoalPaths;
use lalrpop_grammar_symbols::NonterminalString;
use lalrpop_lr1_least_trees::TreeMove;
use std::alloc::{AllocError, Global};

/// Light completions on which no terminal comes.
#[derive(Drop)]
pub struct EndCompletion<'w, 't, 'g> {
    // The steps.
    pub(crate) ways: &'w CompletionGraphs<'t, 'g>,
    // The ways that were found.
    pub(crate) found: GoalPaths<'w>,
}

impl<'w, 't, 'g> EndCompletion<'w, 't, 'g> {
    /// Light completions by the steps behind whose nonterminals nothing comes.
    ///
    /// # Errors
    ///
    /// Memory is refused.
    pub fn new(
        alloc: Global,
        ways: &'w CompletionGraphs<'t, 'g>,
    ) -> Result<EndCompletion<'w, 't, 'g>, AllocError>
        requires { AreCompletionGraphs ways.now }
        ensures out { IfOk result IsEndCompletion }
        ensures ways { IfOk result (λ out. out.ways.now ≡ ways.now) }
    {
        let found = ways.empty().paths_to(alloc, ways.goals())?;
        Ok(EndCompletion { ways, found })
    }

    /// The moves that are left behind a tree of the nonterminal in the state, out to a whole tree, without a shift; none where there is no
    /// such completion.
    ///
    /// # Errors
    ///
    /// Memory is refused. It is where light trees have as many nodes as the greatest number or more.
    pub fn moves(
        &self,
        alloc: Global,
        state: usize,
        nonterminal: &NonterminalString,
    ) -> Result<Option<Vec<TreeMove<'g>>>, AllocError>
        requires { IsEndCompletion self.now }
        ensures { IfOk result (λ found. (g : Grammar) (s : Text) (states : List State) → AreCompletions g s states self.now.ways.now →
            TellsCompletion g s states self.now.ways.now state nonterminal.now.0 NoLeaves (option_map (λ moves. map tree_move_view moves.items)
            found)) }
    {
        let Some(node) = node_of(self.ways.paths(), state, nonterminal)? else {
            return Ok(None);
        };
        let Some(path) = self.found.path(alloc, node)? else {
            return Ok(None);
        };
        let mut moves = Vec::new(alloc);
        if push_empties(alloc, self.ways, path.edges.as_slice(), &mut moves)? {
            Ok(Some(moves))
        } else {
            Ok(None)
        }
    }

    /// How many moves `moves` gives; the greatest number where they are as many or more. None where no way leads out.
    ///
    /// # Errors
    ///
    /// Memory is refused.
    pub fn count(
        &self,
        state: usize,
        nonterminal: &NonterminalString,
    ) -> Result<Option<u64>, AllocError>
        requires { IsEndCompletion self.now }
    {
        let Some(node) = node_of(self.ways.paths(), state, nonterminal)? else {
            return Ok(None);
        };
        Ok(self.found.weight(node))
    }
}
