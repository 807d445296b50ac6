//! Completions before what comes next: a terminal, or the end.

ghost use Rattle.lalrpop_lr1_counterexamples.specs.ShownMoves.{IsNextCompletion, TellsNextCompletion};

use lalrpop_grammar_symbols::NonterminalString;
use lalrpop_lr1_least_trees::TreeMove;
use lalrpop_lr1_paths::completions::{EndCompletion, WantedCompletion};
use std::alloc::{AllocError, Global};

/// Light completions before what comes next.
#[derive(Drop)]
pub enum NextCompletion<'x, 'w, 't, 'g> {
    /// The end comes.
    End(EndCompletion<'w, 't, 'g>),
    /// The terminal of these comes.
    Terminal(WantedCompletion<'x, 'w, 't, 'g>),
}

impl<'x, 'w, 't, 'g> NextCompletion<'x, 'w, 't, 'g> {
    /// The moves that are left behind a tree of the nonterminal in the state, out to a whole tree, before what comes next; none where there
    /// is no such completion.
    ///
    /// # Errors
    ///
    /// Memory is refused. It is where light trees have as many leaves and nodes as the greatest number or more.
    pub fn moves(
        &self,
        alloc: Global,
        state: usize,
        nonterminal: &NonterminalString,
    ) -> Result<Option<Vec<TreeMove<'g>>>, AllocError>
        requires { IsNextCompletion self.now }
        ensures { TellsNextCompletion self.now state nonterminal.now result }
    {
        match self {
            NextCompletion::End(out) => out.moves(alloc, state, nonterminal),
            NextCompletion::Terminal(out) => out.moves(alloc, state, nonterminal),
        }
    }

    /// How many moves `moves` gives; the greatest number where they are as many or more. None where no way leads out.
    ///
    /// # Errors
    ///
    /// Memory is refused.
    pub fn count(
        &self,
        state: usize,
        nonterminal: &NonterminalString,
    ) -> Result<Option<u64>, AllocError>
        requires { IsNextCompletion self.now }
    {
        match self {
            NextCompletion::End(out) => out.count(state, nonterminal),
            NextCompletion::Terminal(out) => out.count(state, nonterminal),
        }
    }
}
