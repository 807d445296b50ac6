//! The tokens at the leaves of a tree, from left to right.

ghost use Rattle.std.specs.Prelude.{◌≤◌, vec_capacity};
ghost use Rattle.lalrpop_grammar.specs.Walks.{open_through};
ghost use Rattle.lalrpop_grammar.specs.WalkViews.{lists_view};

use crate::token::ScanToken;
use crate::tree::WrittenTree;
use crate::walk::{lists_open, next_leaf};
use lalrpop_grammar_symbols::{Span, TerminalString};
use std::alloc::{AllocError, Global};
use std::slice;

/// A token at a leaf of a tree.
#[derive(Clone, Copy, PartialEq, Eq)]
pub struct Leaf<'t> {
    /// Its terminal.
    pub terminal: &'t TerminalString,
    /// Its text.
    pub text: &'t str,
    /// Where it stands in the text, in bytes.
    pub span: Span,
}

/// The tokens at the leaves of a tree, from left to right. `WrittenTree::leaves` makes it, with room for the whole walk,
/// and `next` takes no memory.
#[derive(Drop)]
pub struct Leaves<'t> {
    // The lists of trees that are open, the innermost last.
    pending: Vec<&'t [WrittenTree]>,
    // All that will be open at once finds room.
    ghost room: { open_through (lists_view pending.items) ≤ vec_capacity pending },
}

impl<'t> Iterator for Leaves<'t> {
    ghost use Rattle.std.specs.Iterator.{YieldsFirstBy, item_count};
    ghost use Rattle.lalrpop_grammar.specs.WalkViews.{leaf_view};
    ghost use Rattle.lalrpop_grammar.specs.Leaves.{tokens_left};

    type Item = Leaf<'t>;

    ghost next_gives = { YieldsFirstBy leaf_view tokens_left };

    ghost remaining = { item_count tokens_left };

    fn next(&mut self) -> Option<Leaf<'t>> {
        next_leaf(&mut self.pending)
    }
}

impl WrittenTree {
    ghost use Rattle.std.specs.Prelude.{◌≡◌, map, IfOk};
    ghost use Rattle.lalrpop_grammar.specs.Trees.{leaves};
    ghost use Rattle.lalrpop_grammar.specs.Views.{token_view, tree_view};
    ghost use Rattle.lalrpop_grammar.specs.Leaves.{tokens_left};

    /// The tokens at the leaves, from left to right, as an iterator. This makes the room for the whole walk: as much as
    /// the tree is deep.
    pub fn leaves(&self, alloc: Global) -> Result<Leaves<'_>, AllocError>
        ensures { IfOk result (λ it. tokens_left it ≡ leaves (tree_view self.now)) }
    {
        let whole = slice::from_ref(self);
        let mut pending = Vec::with_capacity(alloc, lists_open(whole))?;
        pending.push(whole)?;
        Ok(Leaves { pending })
    }

    /// Copies of the tokens at the leaves, from left to right. Their texts are borrowed from the tree.
    pub fn tokens(&self, alloc: Global) -> Result<Vec<ScanToken<'_>>, AllocError>
        ensures { IfOk result (λ tokens. map token_view tokens.items ≡ leaves (tree_view self.now)) }
    {
        let mut tokens = Vec::new(alloc);
        for leaf in self.leaves(alloc)? {
            tokens.push(ScanToken {
                terminal: leaf.terminal.try_clone()?,
                text: leaf.text,
                span: leaf.span,
            })?;
        }
        Ok(tokens)
    }
}
