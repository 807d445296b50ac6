//! Least trees and trees that begin with a terminal, as text: how many leaves and nodes, and the moves that build them.

ghost use Rattle.lalrpop_lr1_first.specs.NumberedGrammars.{HasItsTerminals};
ghost use Rattle.lalrpop_lr1_least_trees.specs.BeginTables.{AreBeginTrees};
ghost use Rattle.lalrpop_lr1_least_trees.specs.GrammarTrees.{AreLeastTrees};
ghost use Rattle.lalrpop_lr1_least_trees.specs.LeastExpanded.{HasTableGrammar};

use lalrpop_grammar_repr::Grammar;
use lalrpop_grammar_symbols::{NonterminalString, TerminalString};
use lalrpop_lr1_interpret::parse::ExpandedTree;
use lalrpop_lr1_least_trees::begin_trees::BeginTrees;
use lalrpop_lr1_least_trees::made_trees::{begin_tree, empty_tree, least_tree};
use lalrpop_lr1_least_trees::{LeastTrees, TreeMove};
use lalrpop_plain_tables::answers::AnswerFault;
use lalrpop_plain_tables::lines::read_tokens;
use std::alloc::{AllocError, Global};

/// What is said where there is no such tree.
const NO_TREE: &str = "no tree";

/// The nonterminal's least tree.
pub(crate) fn least_text(
    alloc: Global,
    grammar: &Grammar,
    name: &NonterminalString,
) -> Result<String, AllocError>
    requires { HasItsTerminals grammar.now }
{
    let trees = LeastTrees::new(alloc, grammar)?;
    least_text_among(alloc, &trees, name)
}

/// The nonterminal's tree among the least ones.
fn least_text_among(
    alloc: Global,
    trees: &LeastTrees<'_>,
    name: &NonterminalString,
) -> Result<String, AllocError>
    requires trees { AreLeastTrees trees.now }
    requires grammar { HasTableGrammar trees.now }
{
    let count = trees.count(name);
    let moves = trees.moves(alloc, name)?;
    match (count, moves, least_tree(alloc, trees, name, 0)?) {
        (Some(count), Some(moves), Some(tree)) => {
            counted_text(alloc, count, &tree, moves.as_slice())
        }
        _ => String::from_str(alloc, NO_TREE),
    }
}

/// Its least tree without leaves.
pub(crate) fn empty_text(
    alloc: Global,
    grammar: &Grammar,
    name: &NonterminalString,
) -> Result<String, AllocError>
    requires { HasItsTerminals grammar.now }
{
    let trees = LeastTrees::new(alloc, grammar)?;
    empty_text_among(alloc, &trees, name)
}

/// Its tree without leaves among the least ones.
fn empty_text_among(
    alloc: Global,
    trees: &LeastTrees<'_>,
    name: &NonterminalString,
) -> Result<String, AllocError>
    requires trees { AreLeastTrees trees.now }
    requires grammar { HasTableGrammar trees.now }
{
    let moves = trees.empty_moves(alloc, name)?;
    match (moves, empty_tree(alloc, trees, name)?) {
        (Some(moves), Some(tree)) => moves_text(alloc, &tree, moves.as_slice()),
        _ => String::from_str(alloc, NO_TREE),
    }
}

/// A tree of it that begins with the first of the tokens, and the place at which it does.
pub(crate) fn begin_text(
    alloc: Global,
    grammar: &Grammar,
    name: &NonterminalString,
    tokens: &str,
) -> Result<String, AnswerFault>
    requires { HasItsTerminals grammar.now }
{
    let tokens = read_tokens(alloc, tokens)?;
    let text = match tokens.first() {
        Some(terminal) => begin_text_with(alloc, grammar, name, terminal),
        None => String::from_str(alloc, NO_TREE),
    };
    Ok(text?)
}

/// A tree of it that begins with the terminal, and the place at which it does.
fn begin_text_with(
    alloc: Global,
    grammar: &Grammar,
    name: &NonterminalString,
    terminal: &TerminalString,
) -> Result<String, AllocError>
    requires { HasItsTerminals grammar.now }
{
    let trees = LeastTrees::new(alloc, grammar)?;
    let begins = BeginTrees::new(alloc, &trees, terminal)?;
    begin_text_among(alloc, &begins, name)
}

/// Its tree among those that begin with a terminal, and the place at which it does.
fn begin_text_among(
    alloc: Global,
    begins: &BeginTrees<'_, '_>,
    name: &NonterminalString,
) -> Result<String, AllocError>
    requires begins { AreBeginTrees begins.now }
    requires grammar { HasTableGrammar begins.now.trees.now }
{
    let production = begins.production(name);
    let moves = begins.moves(alloc, name)?;
    match (production, moves, begin_tree(alloc, begins, name, 0)?) {
        (Some((_, place)), Some(moves), Some(tree)) => {
            placed_text(alloc, place, &tree, moves.as_slice())
        }
        _ => String::from_str(alloc, NO_TREE),
    }
}

/// How many leaves and nodes the tree has by another count, and its moves.
fn counted_text(
    alloc: Global,
    count: usize,
    tree: &ExpandedTree<'_>,
    moves: &[TreeMove<'_>],
) -> Result<String, AllocError> {
    let mut text = format!(in alloc; "{count}; ")?;
    push_moves(tree, moves, &mut text)?;
    Ok(text)
}

/// The place at which the tree begins, and its moves.
fn placed_text(
    alloc: Global,
    place: usize,
    tree: &ExpandedTree<'_>,
    moves: &[TreeMove<'_>],
) -> Result<String, AllocError> {
    let mut text = format!(in alloc; "at {place}; ")?;
    push_moves(tree, moves, &mut text)?;
    Ok(text)
}

/// How many leaves and nodes the tree has, and the moves.
fn moves_text(
    alloc: Global,
    tree: &ExpandedTree<'_>,
    moves: &[TreeMove<'_>],
) -> Result<String, AllocError> {
    let mut text = String::new(alloc);
    push_moves(tree, moves, &mut text)?;
    Ok(text)
}

/// Puts how many leaves and nodes the tree has, and the moves, behind the text.
fn push_moves(
    tree: &ExpandedTree<'_>,
    moves: &[TreeMove<'_>],
    text: &mut String,
) -> Result<(), AllocError> {
    let count = tree.node_count();
    write!(text, "{count}:")?;
    for one in moves {
        push_move(one, text)?;
    }
    Ok(())
}

/// Puts the move behind the text: the terminal of a shift, the name of what is reduced to.
fn push_move(one: &TreeMove<'_>, text: &mut String) -> Result<(), AllocError> {
    match one {
        TreeMove::Shift(terminal) => write!(text, " {terminal}"),
        TreeMove::Reduce(production) => write!(text, " {}", production.nonterminal),
    }
}
