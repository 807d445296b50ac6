//! Parse trees in terms of the written grammar.

ghost use Rattle.std.specs.Prelude.{◌≡◌, IfOk, map, option_map};
ghost use Rattle.lalrpop_grammar.specs.Trees.{trees};
ghost use Rattle.lalrpop_grammar.specs.Views.{tree_view};
ghost use Rattle.lalrpop_grammar.specs.Walks.{elements};
ghost use Rattle.lalrpop_grammar.specs.declared.tree.WrittenTree.TheVariants.{Rule as rule_tree, Terminal as leaf};

use lalrpop_grammar_symbols::{
    Atom, Boxed, List, NonterminalString, Span, Symbol, TerminalString, clone_symbols,
};
use std::alloc::{AllocError, Global};
use std::mem;

/// A parse tree over the written grammar.
#[derive(PartialEq, Eq)]
pub enum WrittenTree {
    /// A rule, by one of its alternatives.
    Rule {
        /// The rule's name.
        rule: NonterminalString,
        /// The arguments, where it is a macro.
        args: List<Symbol>,
        /// Which of the alternatives, counted from 0.
        place: u32,
        /// One tree for each of the alternative's symbols.
        children: List<WrittenTree>,
    },
    /// The elements of `X*` or `X+`.
    List(List<WrittenTree>),
    /// What `X?` holds, where it holds something.
    Opt(Option<Boxed<WrittenTree>>),
    /// One tree for each symbol of a group.
    Group(List<WrittenTree>),
    /// A token.
    Terminal {
        /// Its terminal.
        terminal: TerminalString,
        /// Its text.
        text: Atom,
        /// Where it stands in the text, in bytes.
        span: Span,
    },
    /// `@L` or `@R`.
    Look,
}

impl Drop for WrittenTree {
    /// Takes the tree apart by a loop, without memory of its own: a tree may be deeper than the stack has room for. What is
    /// still to be dropped is kept in the place of the first tree below.
    fn drop(mut self) {
        let mut kept: Option<Vec<WrittenTree>> = None;
        loop {
            let below = match self {
                WrittenTree::Rule {
                    rule: _rule,
                    args: _args,
                    place: _,
                    children,
                } => Some(children.into_vec()),
                WrittenTree::List(trees) => Some(trees.into_vec()),
                WrittenTree::Opt(inside) => match inside {
                    Some(tree) => {
                        self = tree.into_inner();
                        continue;
                    }
                    None => None,
                },
                WrittenTree::Group(trees) => Some(trees.into_vec()),
                WrittenTree::Terminal {
                    terminal: _terminal,
                    text: _text,
                    span: _,
                } => None,
                WrittenTree::Look => None,
            };
            if let Some(mut trees) = below {
                if trees.is_empty() {
                    trees.destroy_empty();
                } else {
                    match kept {
                        Some(others) => {
                            let others = WrittenTree::Group(List::from_vec(others));
                            self = mem::replace(&mut trees[0], others);
                            kept = Some(trees);
                            continue;
                        }
                        None => kept = Some(trees),
                    }
                }
            }
            let Some(mut trees) = kept else {
                return;
            };
            let Some(next) = trees.pop() else {
                trees.destroy_empty();
                return;
            };
            self = next;
            // else what is kept would be a chain of such lists, turned round for each of them
            kept = if trees.is_empty() {
                trees.destroy_empty();
                None
            } else {
                Some(trees)
            };
        }
    }
}

impl WrittenTree {
    /// The elements, where it is a list.
    pub fn into_elements(self) -> Option<List<WrittenTree>>
        ensures { option_map (λ list. trees (map tree_view list)) result ≡ elements (tree_view self) }
    {
        match self {
            WrittenTree::List(trees) => Some(trees),
            WrittenTree::Rule {
                rule: _,
                args: _,
                place: _,
                children: _,
            } => None,
            WrittenTree::Opt(_) => None,
            WrittenTree::Group(_) => None,
            WrittenTree::Terminal {
                terminal: _,
                text: _,
                span: _,
            } => None,
            WrittenTree::Look => None,
        }
    }

    /// A copy that equals it.
    #[cycle(try_clone_trees)]
    pub fn try_clone(&self, alloc: Global) -> Result<WrittenTree, AllocError>
        ensures { IfOk result (λ copy. copy ≡ self.now) }
    {
        match self {
            WrittenTree::Rule {
                rule,
                args,
                place,
                children,
            } => {
                let children = clone_trees(alloc, children.as_slice())?;
                rule_above(alloc, rule, args.as_slice(), *place, children)
            }
            WrittenTree::List(trees) => Ok(WrittenTree::List(clone_trees(
                alloc,
                trees.as_slice(),
            )?)),
            WrittenTree::Opt(None) => Ok(WrittenTree::Opt(None)),
            WrittenTree::Opt(Some(tree)) => {
                Ok(WrittenTree::Opt(Some(clone_boxed(alloc, tree)?)))
            }
            WrittenTree::Group(trees) => {
                Ok(WrittenTree::Group(clone_trees(alloc, trees.as_slice())?))
            }
            WrittenTree::Terminal {
                terminal,
                text,
                span,
            } => clone_leaf(terminal, text, *span),
            WrittenTree::Look => Ok(WrittenTree::Look),
        }
    }
}

/// The tree of these children, with copies of the rule's name and of the arguments.
fn rule_above(
    alloc: Global,
    rule: &NonterminalString,
    args: &[Symbol],
    place: u32,
    children: List<WrittenTree>,
) -> Result<WrittenTree, AllocError>
    ensures { IfOk result (λ made. made ≡ rule_tree rule.now args.now place children) }
{
    let rule = rule.try_clone()?;
    let args = clone_symbols(alloc, args)?;
    Ok(WrittenTree::Rule {
        rule,
        args,
        place,
        children,
    })
}

/// A token with copies of its terminal and its text.
fn clone_leaf(terminal: &TerminalString, text: &Atom, span: Span) -> Result<WrittenTree, AllocError>
    ensures { IfOk result (λ made. made ≡ leaf terminal.now text.now span) }
{
    let text = text.try_clone()?;
    let terminal = terminal.try_clone()?;
    Ok(WrittenTree::Terminal {
        terminal,
        text,
        span,
    })
}

/// A copy of the boxed tree.
#[cycle(try_clone_trees)]
fn clone_boxed(alloc: Global, tree: &Boxed<WrittenTree>) -> Result<Boxed<WrittenTree>, AllocError>
    ensures { IfOk result (λ copy. copy ≡ tree.now) }
{
    let copy = tree.get().try_clone(alloc)?;
    Boxed::new(alloc, copy)
}

/// Copies of the trees, in order.
#[cycle(try_clone_trees)]
fn clone_trees(alloc: Global, trees: &[WrittenTree]) -> Result<List<WrittenTree>, AllocError>
    ensures { IfOk result (λ copy. copy ≡ trees.now) }
{
    let mut copy = List::new(alloc);
    for tree in trees {
        copy.push(tree.try_clone(alloc)?)?;
    }
    Ok(copy)
}
