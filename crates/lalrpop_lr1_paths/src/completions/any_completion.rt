//! Light completions, whatever comes on them.

ghost use Rattle.std.specs.Prelude.{◌≡◌, ◌<◌, IfOk, OnOk, length, map, option_map, List};
ghost use Rattle.lalrpop_grammar_symbols.specs.Symbols.{Terminal};
ghost use Rattle.lalrpop_grammar_repr.specs.declared.grammar.Grammar.{Grammar};
ghost use Rattle.lalrpop_lr1_theory.specs.States.{State};
ghost use Rattle.lalrpop_grammar_symbols.specs.Symbols.{Text};
ghost use Rattle.lalrpop_lr1_least_trees.specs.GrammarTrees.{AreLeastTrees};
ghost use Rattle.lalrpop_lr1_least_trees.specs.MoveViews.{tree_move_view};
ghost use Rattle.lalrpop_lr1_least_trees.specs.RestForests.{AnyLeaves};
ghost use Rattle.lalrpop_lr1_paths.specs.CompletionGraphs.{AreCompletionGraphs, AreCompletions};
ghost use Rattle.lalrpop_lr1_paths.specs.CompletionSearches.{HasAnyPathIf, IsAnyCompletion, TellsCompletion};
ghost use Rattle.lalrpop_lr1_paths.specs.StepMoves.{AddsWayIf};

use crate::completion_steps::{CompletionGraphs, node_of};
use crate::completions::step_moves::push_anys;
use crate::graph_paths::GoalPaths;
use lalrpop_grammar_symbols::NonterminalString;
use lalrpop_lr1_least_trees::TreeMove;
use std::alloc::{AllocError, Global};

/// Light completions, whatever comes on them.
#[derive(Drop)]
pub struct AnyCompletion<'w, 't, 'g> {
    // The steps.
    pub(crate) ways: &'w CompletionGraphs<'t, 'g>,
    // The ways that were found.
    pub(crate) found: GoalPaths<'w>,
}

impl<'w, 't, 'g> AnyCompletion<'w, 't, 'g> {
    /// Light completions by the steps.
    ///
    /// # Errors
    ///
    /// Memory is refused.
    pub fn new(
        alloc: Global,
        ways: &'w CompletionGraphs<'t, 'g>,
    ) -> Result<AnyCompletion<'w, 't, 'g>, AllocError>
        requires { AreCompletionGraphs ways.now }
        ensures out { IfOk result IsAnyCompletion }
        ensures ways { IfOk result (λ out. out.ways.now ≡ ways.now) }
    {
        let found = ways.any().paths_to(alloc, ways.goals())?;
        Ok(AnyCompletion { ways, found })
    }

    /// The steps.
    pub fn ways(&self) -> &'w CompletionGraphs<'t, 'g>
        ensures { result.now ≡ self.now.ways.now }
    {
        self.ways
    }

    /// How much a completion from the node weighs; none where there is none.
    pub(crate) fn weight(&self, node: usize) -> Option<u64>
        requires { IsAnyCompletion self.now }
        ensures { HasAnyPathIf self.now node result }
    {
        self.found.weight(node)
    }

    /// Adds the moves of a completion from the node; false where there is none.
    pub(crate) fn push_from(
        &self,
        alloc: Global,
        node: usize,
        moves: &mut Vec<TreeMove<'g>>,
    ) -> Result<bool, AllocError>
        requires { IsAnyCompletion self.now }
        ensures { IfOk result (AddsWayIf self.now.ways.now node AnyLeaves moves.old.items moves.new.items) }
    {
        let Some(path) = self.found.path(alloc, node)? else {
            return Ok(false);
        };
        push_anys(alloc, self.ways, path.edges.as_slice(), moves)
    }

    /// The moves that are left behind a tree of the nonterminal in the state, out to a whole tree; none where no way leads out.
    ///
    /// # Errors
    ///
    /// Memory is refused. It is where light trees have as many leaves and nodes as the greatest number or more.
    pub fn moves(
        &self,
        alloc: Global,
        state: usize,
        nonterminal: &NonterminalString,
    ) -> Result<Option<Vec<TreeMove<'g>>>, AllocError>
        requires { IsAnyCompletion self.now }
        ensures { IfOk result (λ found. (g : Grammar) (s : Text) (states : List State) → AreCompletions g s states self.now.ways.now →
            TellsCompletion g s states self.now.ways.now state nonterminal.now.0 AnyLeaves (option_map (λ moves. map tree_move_view moves.items)
            found)) }
    {
        let Some(node) = node_of(self.ways.paths(), state, nonterminal)? else {
            return Ok(None);
        };
        let mut moves = Vec::new(alloc);
        if self.push_from(alloc, node, &mut moves)? {
            Ok(Some(moves))
        } else {
            Ok(None)
        }
    }

    /// How many moves `moves` gives; the greatest number where they are as many or more. None where no way leads out.
    ///
    /// # Errors
    ///
    /// Memory is refused.
    pub fn count(
        &self,
        state: usize,
        nonterminal: &NonterminalString,
    ) -> Result<Option<u64>, AllocError>
        requires { IsAnyCompletion self.now }
    {
        let Some(node) = node_of(self.ways.paths(), state, nonterminal)? else {
            return Ok(None);
        };
        Ok(self.found.weight(node))
    }
}
