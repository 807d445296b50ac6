//! A stack of parse trees without productions.

ghost use Rattle.std.specs.Prelude.{◌≡◌, ◌++◌, ◌∷◌, [], List as Lists, MatchOption};
ghost use Rattle.lalrpop_lr1_interpret.specs.declared.parse_trees.parse_tree.ParseTree.{ParseTree};

use crate::parse::TreeStack;
use crate::parse_trees::ParseTree;
use lalrpop_grammar::ScanToken;
use lalrpop_grammar_repr::Production;
use lalrpop_grammar_symbols::List;
use std::alloc::{AllocError, Global};

/// The parse trees that a parse has made so far.
#[derive(Drop)]
pub(crate) struct ParseTrees {
    trees: Vec<ParseTree>,
}

impl ParseTrees {
    /// No trees.
    pub(crate) fn new(alloc: Global) -> ParseTrees
        ensures { result.trees.items ≡ [] }
    {
        ParseTrees {
            trees: Vec::new(alloc),
        }
    }

    /// Its last tree.
    pub(crate) fn into_last(self) -> Option<ParseTree>
        ensures { MatchOption result (self.trees.items ≡ [])
            (λ tree. (rest : Lists ParseTree) × (self.trees.items ≡ rest ++ tree ∷ [])) }
    {
        let ParseTrees { mut trees } = self;
        trees.pop()
    }
}

impl<'g> TreeStack<'g> for ParseTrees {
    ghost use Rattle.std.specs.Prelude.{◌≡◌};
    ghost use Rattle.lalrpop_lr1_theory.specs.Spans.{without_spans};
    ghost use Rattle.lalrpop_lr1_interpret.specs.NamedTrees.{name_forest, parse_tree_views};

    ghost given = { λ _. tt };

    ghost stands = { λ it ts _. parse_tree_views it.trees.items ≡ name_forest (without_spans ts) };

    fn leaf(&mut self, token: &ScanToken<'_>) -> Result<(), AllocError> {
        let terminal = token.terminal.try_clone()?;
        self.trees.push(ParseTree::Terminal(terminal))?;
        Ok(())
    }

    fn node(&mut self, production: &'g Production) -> Result<(), AllocError> {
        let first = self.trees.len() - production.symbols.len();
        let children = self.trees.split_off(first)?;
        let name = production.nonterminal.try_clone()?;
        let tree = ParseTree::Nonterminal(name, List::from_vec(children));
        self.trees.push(tree)?;
        Ok(())
    }
}
