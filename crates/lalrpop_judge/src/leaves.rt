//! Whether tokens are those at the leaves of a tree.

ghost use Rattle.std.specs.Prelude.{◌≡◌, ◌↔◌, [], ◌∷◌, IsTrue, map};
ghost use Rattle.lalrpop_grammar_symbols.specs.Views.{span_view, terminal_view};
ghost use Rattle.lalrpop_grammar.specs.Trees.{leaves, leaves_of, trees as tree_list};
ghost use Rattle.lalrpop_grammar.specs.Views.{token_view, tree_view};
ghost use Rattle.lalrpop_judge.specs.Ends.{EndsAt};

use lalrpop_grammar::{Atom, ScanToken, Span, TerminalString, WrittenTree};
use lalrpop_grammar_rules::closed::same_terminal;

/// Whether the tokens are those at the leaves of the tree, from left to right.
pub(crate) fn are_leaves(tree: &WrittenTree, tokens: &[ScanToken<'_>]) -> bool
    ensures { IsTrue result ↔ (map token_view tokens.now ≡ leaves (tree_view tree.now)) }
{
    match end_of(tree, tokens, 0) {
        Some(end) => tokens.len() <= end,
        None => false,
    }
}

/// The place behind the leaves of the tree, where the tokens have them from the start on.
#[cycle(leaves)]
fn end_of(tree: &WrittenTree, tokens: &[ScanToken<'_>], start: usize) -> Option<usize>
    ensures { EndsAt (map token_view tokens.now) start (leaves (tree_view tree.now)) result }
{
    match tree {
        WrittenTree::Rule { children, .. } => end_of_all(children.as_slice(), tokens, start),
        WrittenTree::List(trees) => end_of_all(trees.as_slice(), tokens, start),
        WrittenTree::Opt(inside) => match inside {
            None => Some(start),
            Some(tree) => end_of(tree.get(), tokens, start),
        },
        WrittenTree::Group(trees) => end_of_all(trees.as_slice(), tokens, start),
        WrittenTree::Terminal {
            terminal,
            text,
            span,
        } => end_of_leaf(terminal, text, *span, tokens, start),
        WrittenTree::Look => Some(start),
    }
}

/// The place behind the leaves of the trees, where the tokens have them from the start on.
#[cycle(leaves)]
fn end_of_all(trees: &[WrittenTree], tokens: &[ScanToken<'_>], start: usize) -> Option<usize>
    ensures { EndsAt (map token_view tokens.now) start
        (leaves_of (tree_list (map tree_view trees.now))) result }
{
    let mut place = start;
    for tree in trees {
        place = end_of(tree, tokens, place)?;
    }
    Some(place)
}

/// The place behind the token at the start, where it is the one of that leaf.
fn end_of_leaf(
    terminal: &TerminalString,
    text: &Atom,
    span: Span,
    tokens: &[ScanToken<'_>],
    start: usize,
) -> Option<usize>
    ensures { EndsAt (map token_view tokens.now) start
        (record { terminal = terminal_view terminal.now; text = text.now; span = span_view span } ∷ [])
        result }
{
    if start >= tokens.len() {
        return None;
    }
    if is_token(&tokens[start], terminal, text, span) {
        Some(start + 1)
    } else {
        None
    }
}

fn is_token(token: &ScanToken<'_>, terminal: &TerminalString, text: &Atom, span: Span) -> bool
    ensures { IsTrue result ↔ (token_view token.now
        ≡ record { terminal = terminal_view terminal.now; text = text.now; span = span_view span }) }
{
    same_terminal(&token.terminal, terminal)
        && token.text == text.as_str()
        && same_span(token.span, span)
}

fn same_span(a: Span, b: Span) -> bool
    ensures { IsTrue result ↔ (span_view a ≡ span_view b) }
{
    a == b
}
