//! Parse trees as text.

ghost use Rattle.std.specs.Prelude.{Some};
ghost use Rattle.std.specs.Fmt.{WritesOnOk};
ghost use Rattle.lalrpop_lr1_interpret.specs.ParseTreeTexts.{node_text, parse_tree_text, parse_tree_texts, trees_text};

use crate::parse_trees::parse_tree::ParseTree;
use lalrpop_grammar_symbols::NonterminalString;
use std::fmt::{self, Debug, Display, Formatter, Write};

/// `[N: a, b]`, a leaf its terminal.
impl Display for ParseTree {
    ghost output = { λ tree. Some (parse_tree_text tree) };

    fn fmt<W: Write>(&self, f: &mut Formatter<W>) -> fmt::Result {
        write_tree(self, f)
    }
}

/// The same.
impl Debug for ParseTree {
    ghost debug_output = { λ tree. Some (parse_tree_text tree) };

    fn fmt<W: Write>(&self, f: &mut Formatter<W>) -> fmt::Result {
        write_tree(self, f)
    }
}

#[cycle(tree_texts)]
fn write_tree<W: Write>(tree: &ParseTree, f: &mut Formatter<W>) -> fmt::Result
    ensures { WritesOnOk W.write_str_gives f.old result (parse_tree_text tree.now) f.new }
{
    match tree {
        ParseTree::Nonterminal(name, trees) => write_node(name, trees.as_slice(), f),
        ParseTree::Terminal(terminal) => Display::fmt(terminal, f),
    }
}

#[cycle(tree_texts)]
fn write_node<W: Write>(
    name: &NonterminalString,
    trees: &[ParseTree],
    f: &mut Formatter<W>,
) -> fmt::Result
    ensures { WritesOnOk W.write_str_gives f.old result (node_text name.now.0 (parse_tree_texts trees.now)) f.new }
{
    f.write_str("[")?;
    Display::fmt(name, f)?;
    f.write_str(": ")?;
    write_trees(trees, f)?;
    f.write_str("]")
}

#[cycle(tree_texts)]
fn write_trees<W: Write>(trees: &[ParseTree], f: &mut Formatter<W>) -> fmt::Result
    ensures { WritesOnOk W.write_str_gives f.old result (trees_text (parse_tree_texts trees.now)) f.new }
{
    for (i, tree) in trees.iter().enumerate() {
        if i > 0 {
            f.write_str(", ")?;
        }
        write_tree(tree, f)?;
    }
    Ok(())
}
