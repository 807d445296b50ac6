//! Paths to states.

ghost use Rattle.std.specs.Prelude.{◌≡◌, IfOk, List, map, option_map, ℕ};
ghost use Rattle.lalrpop_grammar_repr.specs.declared.grammar.Grammar.{Grammar};
ghost use Rattle.lalrpop_lr1_theory.specs.Automata.{Walk};
ghost use Rattle.lalrpop_lr1_theory.specs.Productions.{Symbol};
ghost use Rattle.lalrpop_lr1_theory.specs.States.{LookaheadSet};
ghost use Rattle.lalrpop_lr1_theory.specs.PathTrees.{ArePaths, IsBack, LedBy};
ghost use Rattle.lalrpop_lr1_core.specs.Views.{lr_state_view};
ghost use Rattle.lalrpop_lr1_first.specs.FirstSetsOf.{IsProductionOf};
ghost use Rattle.lalrpop_lr1_first.specs.NumberedGrammars.{IsNumberTableOf};
ghost use Rattle.lalrpop_lr1_first.specs.Numbers.{SpellsSymbols};
ghost use Rattle.lalrpop_lr1_least_trees.specs.GrammarTrees.{AreLeastTrees, symbols_by};
ghost use Rattle.lalrpop_lr1_least_trees.specs.MoveViews.{tree_move_view};
ghost use Rattle.lalrpop_lr1_paths.specs.PathForests.{HaveForestMoves};
ghost use Rattle.lalrpop_lr1_paths.specs.PathTables.{
  AreReachedStates,
  AreStatePaths,
  HaveSymbols,
  last_edge_at,
  last_steps,
};

use crate::state_paths::path_edges::{NumberEdge, path_edges};
use crate::state_paths::path_moves::{forest_count, forest_moves};
use crate::state_paths::reversed::last_path_edges;
use lalrpop_lr1_core::State;
use lalrpop_lr1_least_trees::{LeastTrees, TreeMove};
use std::alloc::{AllocError, Global};

/// A path from state 0 to each state that edges lead to. All of them are one tree: a path without its last edge is the path to the state
/// from which that edge leads.
///
/// They are found as lightest paths, where an edge weighs as much as the least tree of its symbol has leaves and nodes.
#[derive(Drop)]
pub struct StatePaths<'t, 'g> {
    // The least trees of the grammar.
    pub(crate) trees: &'t LeastTrees<'g>,
    // At each state the last edge of its path; none at state 0, and where no path leads.
    pub(crate) steps: Vec<Option<NumberEdge>>,
}

impl<'t, 'g> StatePaths<'t, 'g> {
    /// Paths to the states, which are those of the trees' grammar.
    ///
    /// # Errors
    ///
    /// Memory is refused.
    pub fn new<L>(
        alloc: Global,
        trees: &'t LeastTrees<'g>,
        states: &[State<'_, L>],
    ) -> Result<StatePaths<'t, 'g>, AllocError>
        requires { AreLeastTrees trees.now }
        ensures paths { IfOk result AreStatePaths }
        ensures trees { IfOk result (λ paths. paths.trees.now ≡ trees.now) }
        ensures all { IfOk result (λ paths. (look : L → LookaheadSet) →
            AreReachedStates trees.now (map (lr_state_view look) states.now) →
            ArePaths (map (lr_state_view look) states.now) (last_steps paths)) }
    {
        let edges = path_edges(alloc, trees, states)?;
        let steps = last_path_edges(alloc, trees, states.len(), edges.as_slice())?;
        Ok(StatePaths { trees, steps })
    }

    /// The least trees of the grammar.
    pub fn trees(&self) -> &'t LeastTrees<'g>
        ensures { result.now ≡ self.now.trees.now }
    {
        self.trees
    }

    /// The last edge of the path to the state.
    fn last_edge(&self, state: usize) -> Option<NumberEdge>
        ensures { result ≡ last_edge_at self.now.steps.items state }
    {
        *self.steps.get(state)?
    }

    /// The state so many places back on the path to the state; where the path has fewer, the one at which it begins.
    pub fn back(&self, state: usize, places: usize) -> usize
        ensures { (m : ℕ) → IsBack (LedBy (last_steps self.now)) places state m → result ≡ m }
    {
        let mut place = state;
        for _ in 0..places {
            match self.last_edge(place) {
                None => return place,
                Some(edge) => place = edge.source,
            }
        }
        place
    }

    /// The numbers of the symbols along the path to the state.
    fn path_symbols(&self, alloc: Global, state: usize) -> Result<Vec<usize>, AllocError>
        requires { AreStatePaths self.now }
        ensures symbols { IfOk result (λ symbols. HaveSymbols self.now.trees.now.table symbols.items) }
        ensures path { IfOk result (λ symbols. (syms : List Symbol) → Walk (LedBy (last_steps self.now)) syms state →
            SpellsSymbols (symbols_by self.now.trees.now.table) symbols.items syms) }
    {
        let mut symbols = Vec::new(alloc);
        let mut place = state;
        while let Some(edge) = self.last_edge(place) {
            symbols.push(edge.symbol)?;
            place = edge.source;
        }
        symbols.reverse();
        Ok(symbols)
    }

    /// The moves that build least trees over the symbols along the path to the state, from the left; none where one of the symbols has
    /// no tree.
    ///
    /// # Errors
    ///
    /// Memory is refused. It is where one of the trees has as many leaves and nodes as the greatest number or more.
    pub fn moves(
        &self,
        alloc: Global,
        state: usize,
    ) -> Result<Option<Vec<TreeMove<'g>>>, AllocError>
        requires { AreStatePaths self.now }
        ensures { IfOk result (λ found. (g : Grammar) (syms : List Symbol) → IsNumberTableOf g self.now.trees.now.table →
            Walk (LedBy (last_steps self.now)) syms state →
            HaveForestMoves (IsProductionOf g) syms (option_map (λ moves. map tree_move_view moves.items) found)) }
    {
        let symbols = self.path_symbols(alloc, state)?;
        let moves = forest_moves(alloc, self.trees, symbols.as_slice())?;
        Ok(moves)
    }

    /// How many moves `moves` gives for the state; the greatest number where they are as many or more, and where it gives none.
    ///
    /// # Errors
    ///
    /// Memory is refused.
    pub fn count(&self, alloc: Global, state: usize) -> Result<u64, AllocError>
        requires { AreStatePaths self.now }
    {
        let symbols = self.path_symbols(alloc, state)?;
        Ok(forest_count(self.trees, symbols.as_slice()))
    }
}
