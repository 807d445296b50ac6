//! Parse trees without productions.

ghost use Rattle.std.specs.Prelude.{◌≡◌, ◌++◌, IfOk, OnOk, map};
ghost use Rattle.lalrpop_grammar_symbols.specs.Views.{terminal_view};
ghost use Rattle.lalrpop_lr1_interpret.specs.NamedTrees.{named_leaves, parse_tree_view, parse_tree_views};

use lalrpop_grammar_symbols::{List, NonterminalString, TerminalString};
use std::alloc::{AllocError, Global};

/// A parse tree: a nonterminal over trees, or a terminal.
#[derive(PartialEq, Eq, Drop)]
pub enum ParseTree {
    /// A node, with the trees of its right side.
    Nonterminal(NonterminalString, List<ParseTree>),
    /// A leaf.
    Terminal(TerminalString),
}

impl ParseTree {
    /// The terminals at its leaves, from left to right.
    pub fn terminals(&self, alloc: Global) -> Result<Vec<TerminalString>, AllocError>
        ensures { IfOk result (λ terminals. map terminal_view terminals.items ≡ named_leaves (parse_tree_view self.now)) }
    {
        let mut terminals = Vec::new(alloc);
        self.add_terminals(&mut terminals)?;
        Ok(terminals)
    }

    /// Adds the terminals at its leaves.
    #[cycle(add_terminals)]
    fn add_terminals(&self, terminals: &mut Vec<TerminalString>) -> Result<(), AllocError>
        ensures { OnOk result (map terminal_view terminals.new.items
            ≡ map terminal_view terminals.old.items ++ named_leaves (parse_tree_view self.now)) }
    {
        match self {
            ParseTree::Nonterminal(_, trees) => add_all_terminals(trees.as_slice(), terminals),
            ParseTree::Terminal(terminal) => {
                terminals.push(terminal.try_clone()?)?;
                Ok(())
            }
        }
    }
}

/// Adds the terminals at the leaves of the trees.
#[cycle(add_terminals)]
fn add_all_terminals(
    trees: &[ParseTree],
    terminals: &mut Vec<TerminalString>,
) -> Result<(), AllocError>
    ensures { OnOk result (map terminal_view terminals.new.items
        ≡ map terminal_view terminals.old.items ++ named_leaves (parse_tree_views trees.now)) }
{
    for tree in trees {
        tree.add_terminals(terminals)?;
    }
    Ok(())
}
