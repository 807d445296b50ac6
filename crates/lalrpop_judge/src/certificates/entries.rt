//! The entries of a tree's list beside those of the shared trees, and what is left behind them.

ghost use Rattle.std.specs.Prelude.{◌≡◌, ◌↔◌, ◌≤◌, ◌++◌, IsTrue, List, MatchOption, length, map, option_map, take};
ghost use Rattle.lalrpop_grammar_symbols.specs.Views.{span_view, terminal_view};
ghost use Rattle.lalrpop_lr1_theory.specs.Productions.{first};
ghost use Rattle.lalrpop_lr1_interpret.specs.ExpandedViews.{expanded_views};
ghost use Rattle.lalrpop_lr1_interpret.specs.MoveOrders.{Entry, label_move, leaf_label, tree_entries};
ghost use Rattle.lalrpop_lr1_interpret.specs.TreeEntries.{tree_entry_view, tree_entry_views, tree_label_view};
ghost use Rattle.lalrpop_judge.specs.Certificates.{AreCountedFrom, number_move};
ghost use Rattle.lalrpop_judge.specs.EntryMoves.{list_moves, list_spans};
ghost use Rattle.lalrpop_judge.specs.MoveViews.{move_view};
ghost use Rattle.lalrpop_judge.specs.MoveLists.{ContinuesBy, shifted_terminals};

use crate::certificates::moves::Move;
use lalrpop_grammar_symbols::{Span, TerminalString};
use lalrpop_lr1_interpret::parse::{ExpandedTree, TreeEntry, TreeLabel};

/// Whether the i-th leaf has the span i..i+1.
pub(crate) fn are_counted(entries: &[TreeEntry<'_>]) -> bool
    ensures { IsTrue result ↔ AreCountedFrom 0 (list_spans (tree_entry_views entries.now)) }
{
    let mut number = 0usize;
    for entry in entries {
        if let TreeLabel::Leaf(_, span) = &entry.label {
            if *span != Span(number, number + 1) {
                return false;
            }
            number += 1;
        }
    }
    true
}

/// Whether two leaves are one.
fn is_same_leaf(a: &TerminalString, b: &TerminalString, span: Span, place: Span) -> bool
    ensures { IsTrue result ↔ (leaf_label (terminal_view a.now) (span_view span) ≡ leaf_label (terminal_view b.now) (span_view place)) }
{
    *a == *b && span == place
}

/// Whether two leaves, or two nodes, are one.
fn is_same_label(a: &TreeLabel<'_>, b: &TreeLabel<'_>) -> bool
    ensures { IsTrue result ↔ (tree_label_view a.now ≡ tree_label_view b.now) }
{
    match a {
        TreeLabel::Leaf(terminal, span) => match b {
            TreeLabel::Leaf(other, place) => is_same_leaf(terminal, other, *span, *place),
            TreeLabel::Node(_) => false,
        },
        TreeLabel::Node(production) => match b {
            TreeLabel::Leaf(..) => false,
            TreeLabel::Node(other) => **production == **other,
        },
    }
}

/// Whether two entries are one: the same leaf or node, over as many entries.
fn is_same_entry(a: &TreeEntry<'_>, b: &TreeEntry<'_>) -> bool
    ensures { IsTrue result ↔ (tree_entry_view a.now ≡ tree_entry_view b.now) }
{
    if a.size != b.size {
        return false;
    }
    is_same_label(&a.label, &b.label)
}

/// Whether the entries begin with these.
fn begin_with(entries: &[TreeEntry<'_>], front: &[TreeEntry<'_>]) -> bool
    ensures { IsTrue result ↔ (take (length front.now) (tree_entry_views entries.now) ≡ tree_entry_views front.now) }
{
    if entries.len() < front.len() {
        return false;
    }
    for (place, entry) in front.iter().enumerate() {
        if !is_same_entry(&entries[place], entry) {
            return false;
        }
    }
    true
}

/// The place behind the lists of the trees, one behind another; none where the entries don't begin with these.
pub(crate) fn place_behind(entries: &[TreeEntry<'_>], trees: &[ExpandedTree<'_>]) -> Option<usize>
    ensures { MatchOption result
        ((left : List Entry) → tree_entry_views entries.now ≡ tree_entries (expanded_views trees.now) ++ left → ⊥)
        (λ place. (place ≤ length entries.now)
        × (take place (tree_entry_views entries.now) ≡ tree_entries (expanded_views trees.now))) }
{
    let mut place = 0usize;
    for tree in trees {
        let front = tree.entries();
        let (_, left) = entries.split_at(place);
        if !begin_with(left, front) {
            return None;
        }
        place += front.len();
    }
    Some(place)
}

/// Whether the entry's move is the one that is named.
fn is_named(entry: &TreeEntry<'_>, name: &Move) -> bool
    ensures { IsTrue result ↔ (number_move (label_move (tree_label_view entry.now.label)) ≡ move_view name.now) }
{
    match &entry.label {
        TreeLabel::Leaf(terminal, _) => match name {
            Move::Shift(other) => *terminal == *other,
            Move::Reduce(_) => false,
        },
        TreeLabel::Node(production) => match name {
            Move::Shift(_) => false,
            Move::Reduce(action) => production.action == *action,
        },
    }
}

/// The terminal of the first leaf.
fn first_leaf<'t>(entries: &'t [TreeEntry<'_>]) -> Option<&'t TerminalString>
    ensures { option_map (λ t. terminal_view t.now) result
        ≡ first (shifted_terminals (list_moves (tree_entry_views entries.now))) }
{
    for entry in entries {
        if let TreeLabel::Leaf(terminal, _) = &entry.label {
            return Some(terminal);
        }
    }
    None
}

/// Whether the first leaf's terminal, or that there is none, is what comes next.
fn comes_next(found: Option<&TerminalString>, next: &Option<TerminalString>) -> bool
    ensures { IsTrue result ↔ (option_map (λ t. terminal_view t.now) found.entry ≡ option_map terminal_view next.now) }
{
    match found {
        None => next.is_none(),
        Some(terminal) => match next {
            None => false,
            Some(other) => *terminal == *other,
        },
    }
}

/// Whether the two name one move.
pub(crate) fn is_same_name(a: &Move, b: &Move) -> bool
    ensures { IsTrue result ↔ (move_view a.now ≡ move_view b.now) }
{
    match a {
        Move::Shift(terminal) => match b {
            Move::Shift(other) => *terminal == *other,
            Move::Reduce(_) => false,
        },
        Move::Reduce(action) => match b {
            Move::Shift(_) => false,
            Move::Reduce(other) => *action == *other,
        },
    }
}

/// Whether the first of the entries makes the move that is named, and the first leaf among them is of what comes next.
pub(crate) fn continue_by(
    left: &[TreeEntry<'_>],
    next: &Option<TerminalString>,
    name: &Move,
) -> bool
    ensures { IsTrue result ↔ ContinuesBy (list_moves (tree_entry_views left.now)) (option_map terminal_view next.now)
        (move_view name.now) }
{
    match left.first() {
        None => false,
        Some(entry) => {
            if !is_named(entry, name) {
                return false;
            }
            comes_next(first_leaf(left), next)
        }
    }
}
