//! The walk over a tree's list: whether the tree is over a grammar's productions.

ghost use Rattle.std.specs.Prelude.{ℕ, ◌≡◌, ◌↔◌, ◌∷◌, [], IsTrue, IfOk, MatchOption, map, suc};
ghost use Rattle.std.specs.List.{sum_by};
ghost use Rattle.lalrpop_lr1_theory.specs.Productions.{nonterminal};
ghost use Rattle.lalrpop_lr1_theory.specs.Spans.{without_spans};
ghost use Rattle.lalrpop_lr1_theory.specs.Trees.{AreOver, roots};
ghost use Rattle.lalrpop_lr1_core.specs.Views.{production_symbol_view, production_view};
ghost use Rattle.lalrpop_lr1_first.specs.FirstSetsOf.{IsProductionOf};
ghost use Rattle.lalrpop_lr1_interpret.specs.ExpandedViews.{lent_view};
ghost use Rattle.lalrpop_lr1_interpret.specs.MoveOrders.{HasTreeSizes, trees_of};
ghost use Rattle.lalrpop_lr1_interpret.specs.TreeEntries.{tree_entry_views, tree_label_view};
ghost use Rattle.lalrpop_judge.specs.EntryMoves.{IsKeptBeside, IsOverLast};
ghost use Rattle.lalrpop_judge.specs.TreeRoots.{tree_root_views};

use crate::certificates::membership::has_production;
use crate::certificates::root::TreeRoot;
use lalrpop_grammar_repr::{Grammar, Production, Symbol};
use lalrpop_grammar_symbols::NonterminalString;
use lalrpop_lr1_interpret::parse::{TreeEntry, TreeLabel, TreeRef};
use std::alloc::{AllocError, Global};

/// Whether the tree has the nonterminal at its root.
pub(crate) fn is_rooted(tree: TreeRef<'_, '_>, name: &NonterminalString) -> bool
    ensures { IsTrue result ↔ (roots (without_spans (lent_view tree.entry)) ≡ nonterminal name.now.0 ∷ []) }
{
    match tree.production() {
        None => false,
        Some(production) => production.nonterminal == *name,
    }
}

/// Whether the roots are of these symbols.
fn have_symbols(roots: &[TreeRoot<'_, '_>], symbols: &[Symbol]) -> bool
    ensures { IsTrue result ↔ (map (λ r. r.symbol) (tree_root_views roots.now) ≡ map production_symbol_view symbols.now) }
{
    if roots.len() != symbols.len() {
        return false;
    }
    for (place, symbol) in symbols.iter().enumerate() {
        if !roots[place].has_symbol(symbol) {
            return false;
        }
    }
    true
}

/// Whether a node over the roots has so many entries, itself included.
fn is_size_over(roots: &[TreeRoot<'_, '_>], size: usize) -> bool
    ensures { IsTrue result ↔ (size ≡ suc (sum_by (λ r. r.size) (tree_root_views roots.now))) }
{
    let mut left = size;
    for root in roots {
        let own = root.size();
        if left <= own {
            return false;
        }
        left -= own;
    }
    left == 1
}

/// How many of the roots stay beside a node by the production, of so many entries: those before its children. None where the last of
/// them aren't its children, or the production isn't the grammar's.
fn kept_beside_node(
    grammar: &Grammar,
    roots: &[TreeRoot<'_, '_>],
    production: &Production,
    size: usize,
) -> Option<usize>
    ensures { MatchOption result
        ((kept : ℕ) → IsOverLast (IsProductionOf grammar.now) (tree_root_views roots.now) (production_view production.now) size kept → ⊥)
        (λ kept. IsOverLast (IsProductionOf grammar.now) (tree_root_views roots.now) (production_view production.now) size kept) }
{
    let symbols = production.symbols.as_slice();
    if roots.len() < symbols.len() {
        return None;
    }
    let kept = roots.len() - symbols.len();
    let (_, children) = roots.split_at(kept);
    if !have_symbols(children, symbols) {
        return None;
    }
    if !is_size_over(children, size) {
        return None;
    }
    if !has_production(grammar, production) {
        return None;
    }
    Some(kept)
}

/// How many of the roots stay beside the entry's tree; none where that isn't over the grammar.
fn kept_beside(
    grammar: &Grammar,
    roots: &[TreeRoot<'_, '_>],
    entry: &TreeEntry<'_>,
) -> Option<usize>
    ensures { MatchOption result
        ((kept : ℕ) → IsKeptBeside (IsProductionOf grammar.now) (tree_root_views roots.now) (tree_label_view entry.now.label)
        entry.now.size kept → ⊥)
        (λ kept. IsKeptBeside (IsProductionOf grammar.now) (tree_root_views roots.now) (tree_label_view entry.now.label)
        entry.now.size kept) }
{
    match &entry.label {
        TreeLabel::Leaf(..) => Some(roots.len()),
        TreeLabel::Node(production) => kept_beside_node(grammar, roots, *production, entry.size),
    }
}

/// Whether the trees of the list are over the grammar's productions. The roots of those that it has come past stand on a stack.
pub(crate) fn are_over(
    alloc: Global,
    grammar: &Grammar,
    entries: &[TreeEntry<'_>],
) -> Result<bool, AllocError>
    requires { HasTreeSizes (tree_entry_views entries.now) }
    ensures { IfOk result (λ yes. IsTrue yes
        ↔ AreOver (IsProductionOf grammar.now) (without_spans (trees_of (tree_entry_views entries.now)))) }
{
    let mut roots = Vec::new(alloc);
    for entry in entries {
        match kept_beside(grammar, roots.as_slice(), entry) {
            None => return Ok(false),
            Some(kept) => roots.truncate(kept),
        }
        roots.push(TreeRoot::new(entry))?;
    }
    Ok(true)
}
