//! A stack of written trees.

ghost use Rattle.std.specs.Prelude.{◌≡◌, ◌++◌, ◌∷◌, [], IfOk, List, MatchOption};
ghost use Rattle.lalrpop_grammar.specs.Trees.{Tree};
ghost use Rattle.lalrpop_grammar.specs.Views.{token_view, tree_view};
ghost use Rattle.lalrpop_grammar.specs.declared.tree.WrittenTree.{WrittenTree};

use lalrpop_grammar::{Origin, ScanToken, WrittenTree};
use lalrpop_grammar_repr::{ActionFnDefn, Production};
use lalrpop_grammar_symbols::{Atom, TerminalLiteral, TerminalString};
use lalrpop_lr1_interpret::parse::TreeStack;
use lalrpop_run_trees::written_trees::tree_of_action;
use std::alloc::{AllocError, Global};

/// The written trees that a parse has made so far.
#[derive(Drop)]
pub(crate) struct WrittenTrees<'p> {
    alloc: Global,
    actions: &'p [ActionFnDefn],
    origins: &'p [Origin],
    trees: Vec<WrittenTree>,
}

impl<'p> WrittenTrees<'p> {
    /// No trees, of productions with these actions, of which the given ones stand for these written choices.
    pub(crate) fn new(
        alloc: Global,
        actions: &'p [ActionFnDefn],
        origins: &'p [Origin],
    ) -> WrittenTrees<'p>
        ensures none { result.trees.items ≡ [] }
        ensures actions { result.actions.now ≡ actions.now }
        ensures origins { result.origins.now ≡ origins.now }
    {
        WrittenTrees {
            alloc,
            actions,
            origins,
            trees: Vec::new(alloc),
        }
    }

    /// Its last tree.
    pub(crate) fn into_last(self) -> Option<WrittenTree>
        ensures { MatchOption result (self.entry.trees.items ≡ [])
            (λ tree. (rest : List WrittenTree) × (self.entry.trees.items ≡ rest ++ tree ∷ [])) }
    {
        let WrittenTrees {
            alloc: _,
            actions: _,
            origins: _,
            mut trees,
        } = self;
        trees.pop()
    }
}

/// The token's text; where that is the literal's of which it is, the same memory.
fn text_of_token(alloc: Global, token: &ScanToken<'_>) -> Result<Atom, AllocError>
    ensures { IfOk result (λ text. text ≡ (token_view token.now).text) }
{
    match &token.terminal {
        TerminalString::Literal(TerminalLiteral::Quoted(text)) if text.as_str() == token.text => {
            text.try_clone()
        }
        _ => Atom::new(alloc, token.text),
    }
}

/// The tree that a token is.
fn tree_of_token(alloc: Global, token: &ScanToken<'_>) -> Result<WrittenTree, AllocError>
    ensures { IfOk result (λ tree. tree_view tree ≡ Tree.terminal (token_view token.now)) }
{
    Ok(WrittenTree::Terminal {
        terminal: token.terminal.try_clone()?,
        text: text_of_token(alloc, token)?,
        span: token.span,
    })
}

impl<'g, 'p> TreeStack<'g> for WrittenTrees<'p> {
    ghost use Rattle.std.specs.Prelude.{List, map};
    ghost use Rattle.lalrpop_grammar.specs.Views.{tree_view};
    ghost use Rattle.lalrpop_grammar.specs.declared.origin.Origin.{Origin};
    ghost use Rattle.lalrpop_grammar_repr.specs.declared.action.ActionFnDefn.{ActionFnDefn};
    ghost use Rattle.lalrpop_run_trees.specs.LabelledTrees.{StandByActions};

    ghost Given = { List ActionFnDefn × List Origin };

    ghost given = { λ it. (it.actions.now, it.origins.now) };

    ghost stands = { λ it ts tokens. StandByActions it.actions.now it.origins.now ts tokens (map tree_view it.trees.items) };

    fn leaf(&mut self, token: &ScanToken<'_>) -> Result<(), AllocError> {
        let tree = tree_of_token(self.alloc, token)?;
        self.trees.push(tree)?;
        Ok(())
    }

    fn node(&mut self, production: &'g Production) -> Result<(), AllocError> {
        let first = self.trees.len() - production.symbols.len();
        let children = self.trees.split_off(first)?;
        let action = production.action;
        let tree = tree_of_action(self.alloc, self.actions, self.origins, action, children)?;
        self.trees.push(tree)?;
        Ok(())
    }
}
