//! From a tree over productions to the written tree that it stands for.

ghost use Rattle.std.specs.Prelude.{◌≡◌, ◌<◌, ◌++◌, ◌∷◌, [], ℕ, Contains, IfOk, List, OnOk, length, map};
ghost use Rattle.lalrpop_grammar.specs.Views.{grammar_view, tree_view};
ghost use Rattle.lalrpop_grammar.specs.Trees.{Tree};
ghost use Rattle.lalrpop_grammar_language.specs.Derivations.{leaf_token, shown_text};
ghost use Rattle.lalrpop_grammar_symbols.specs.Views.{span_view, terminal_view};
ghost use Rattle.lalrpop_lr1_core.specs.TheoryGrammars.{theory_grammar};
ghost use Rattle.lalrpop_lr1_core.specs.Views.{production_view};
ghost use Rattle.lalrpop_lr1_interpret.specs.ExpandedViews.{expanded_view};
ghost use Rattle.lalrpop_lr1_interpret.specs.MoveOrders.{with_label};
ghost use Rattle.lalrpop_lr1_interpret.specs.TreeEntries.{tree_label_view};
ghost use Rattle.lalrpop_lr1_theory.specs.Spans.{SpannedForest, without_spans};
ghost use Rattle.lalrpop_lr1_theory.specs.Trees.{AreOver, IsTreeOf};
ghost use Rattle.lalrpop_norm_theory.specs.Premises.{IsReadGrammar};
ghost use Rattle.lalrpop_run_trees.specs.ActionLabels.{ChoiceLabel, TellsLabel};
ghost use Rattle.lalrpop_run_trees.specs.LabelledTrees.{shown_trees, tree_by_label};
ghost use Rattle.lalrpop_run_parser.specs.Foldings.{IsUnfolded};

use lalrpop_grammar::{Atom, Origin, WrittenTree};
use lalrpop_grammar_repr::{ActionFnDefn, Production};
use lalrpop_grammar_symbols::{Span, TerminalLiteral, TerminalString};
use lalrpop_lr1_interpret::parse::{ExpandedTree, TreeEntry, TreeLabel};
use lalrpop_run_prepare::Prepared;
use lalrpop_run_theory::answers::forests_correspond;
use lalrpop_run_trees::written_trees::tree_of_action;
use std::alloc::{AllocError, Global};

/// What a leaf of the terminal shows: the literal's or the pattern's characters, or the bare name.
fn text_of_terminal(alloc: Global, terminal: &TerminalString) -> Result<Atom, AllocError>
    ensures { IfOk result (λ text. text ≡ shown_text (terminal_view terminal.now)) }
{
    match terminal {
        TerminalString::Literal(literal) => match literal {
            TerminalLiteral::Quoted(text) | TerminalLiteral::Regex(text) => text.try_clone(),
        },
        TerminalString::Bare(name) => name.try_clone(),
        TerminalString::Error => Atom::new(alloc, ""),
    }
}

/// The leaf of the terminal that stands there.
fn written_leaf(
    alloc: Global,
    terminal: &TerminalString,
    span: Span,
) -> Result<WrittenTree, AllocError>
    ensures { IfOk result (λ tree. tree_view tree ≡ Tree.terminal (leaf_token (terminal_view terminal.now) (span_view span))) }
{
    Ok(WrittenTree::Terminal {
        terminal: terminal.try_clone()?,
        text: text_of_terminal(alloc, terminal)?,
        span,
    })
}

/// Puts the leaf of the terminal that stands there behind the trees.
fn push_leaf(
    alloc: Global,
    terminal: &TerminalString,
    span: Span,
    made: &mut Vec<WrittenTree>,
) -> Result<(), AllocError>
    ensures some { OnOk result (0 < length made.new.items) }
    ensures leaf { OnOk result (map tree_view made.new.items
        ≡ map tree_view made.old.items ++ Tree.terminal (leaf_token (terminal_view terminal.now) (span_view span)) ∷ []) }
{
    let leaf = written_leaf(alloc, terminal, span)?;
    made.push(leaf)?;
    Ok(())
}

/// Puts the tree of a node by the production in place of the last of the trees, as many as it has symbols; of all, where there are fewer.
/// The production is over these actions, of which the given ones stand for these written choices.
fn push_node(
    alloc: Global,
    actions: &[ActionFnDefn],
    origins: &[Origin],
    production: &Production,
    made: &mut Vec<WrittenTree>,
) -> Result<(), AllocError>
    ensures some { OnOk result (0 < length made.new.items) }
    ensures node { (label : ChoiceLabel) (before below : List Tree)
        → TellsLabel actions.now origins.now (production_view production.now).action (length below) label
        → length below ≡ length (production_view production.now).right → map tree_view made.old.items ≡ before ++ below
        → OnOk result (map tree_view made.new.items ≡ before ++ tree_by_label label below ∷ []) }
{
    let first = made.len().saturating_sub(production.symbols.len());
    let children = made.split_off(first)?;
    let node = tree_of_action(alloc, actions, origins, production.action, children)?;
    made.push(node)?;
    Ok(())
}

/// Puts the written tree of a leaf or a node behind the others, a node's in place of those of its children.
fn push_entry(
    alloc: Global,
    actions: &[ActionFnDefn],
    origins: &[Origin],
    entry: &TreeEntry<'_>,
    made: &mut Vec<WrittenTree>,
) -> Result<(), AllocError>
    ensures some { OnOk result (0 < length made.new.items) }
    ensures shown { (label_of : ℕ → ChoiceLabel) (trees : SpannedForest)
        → AreOver (λ p. TellsLabel actions.now origins.now p.action (length p.right) (label_of p.action))
        (without_spans (with_label trees (tree_label_view entry.now.label) entry.now.size))
        → map tree_view made.old.items ≡ shown_trees label_of trees
        → OnOk result (map tree_view made.new.items
        ≡ shown_trees label_of (with_label trees (tree_label_view entry.now.label) entry.now.size)) }
{
    match &entry.label {
        TreeLabel::Leaf(terminal, span) => push_leaf(alloc, terminal, *span, made),
        TreeLabel::Node(production) => push_node(alloc, actions, origins, production, made),
    }
}

/// The written tree of the tree over productions with these actions, of which the given ones stand for these written choices.
fn written_tree(
    alloc: Global,
    actions: &[ActionFnDefn],
    origins: &[Origin],
    tree: &ExpandedTree<'_>,
) -> Result<WrittenTree, AllocError>
    ensures { (label_of : ℕ → ChoiceLabel)
        → AreOver (λ p. TellsLabel actions.now origins.now p.action (length p.right) (label_of p.action))
        (without_spans (expanded_view tree.now))
        → IfOk result (λ made. tree_view made ∷ [] ≡ shown_trees label_of (expanded_view tree.now)) }
{
    let entries = tree.entries();
    // the written trees whose parents are still to come
    let mut made = Vec::new(alloc);
    for entry in entries {
        push_entry(alloc, actions, origins, entry, &mut made)?;
    }
    match made.pop() {
        Some(written) => Ok(written),
        None => unreachable!(),
    }
}

/// The written tree that the tree over productions stands for, from the start of the prepared grammar: its leaves have their spans, and as
/// texts what their terminals show.
///
/// It is promised for a grammar as one is read, and for a tree from its start over its productions.
///
/// # Errors
///
/// Want of memory.
pub fn unfold(
    alloc: Global,
    prepared: &Prepared,
    tree: &ExpandedTree<'_>,
) -> Result<WrittenTree, AllocError>
    ensures { IsReadGrammar (grammar_view prepared.now.written)
        → IsTreeOf (Contains (theory_grammar prepared.now.expansion)) prepared.now.start_name.0 (without_spans (expanded_view tree.now))
        → IfOk result (λ made. IsUnfolded prepared.now (expanded_view tree.now) (tree_view made)) }
{
    // the law and what is known of the grammar
    forests_correspond();
    prepared.known();
    let actions = prepared.expansion().action_fn_defns.as_slice();
    written_tree(alloc, actions, prepared.origins(), tree)
}
