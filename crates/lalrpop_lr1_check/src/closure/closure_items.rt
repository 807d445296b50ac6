//! Whether in each state the items with the dot in front are those that the others bring.

ghost use Rattle.std.specs.Prelude.{◌≡◌, ◌↔◌, List, ℕ, IfOk, IsTrue, map};
ghost use Rattle.lalrpop_lr1_theory.specs.States.{HasEdge, HasItem, LookaheadSet};
ghost use Rattle.lalrpop_lr1_core.specs.Views.{lr_state_view};
ghost use Rattle.lalrpop_lr1_theory.specs.NameClosures.{IsNameBegun};
ghost use Rattle.lalrpop_lr1_first.specs.NumberedGrammars.{IsNumberTable, IsSeenIn, table_productions};
ghost use Rattle.lalrpop_lr1_check_lookaheads.specs.CheckedTests.{HasClosureItems};
ghost use Rattle.lalrpop_lr1_check_lookaheads.specs.ListTests.{HoldsAtEach};
ghost use Rattle.lalrpop_lr1_check.specs.ClosureItemTests.{HasStartClosure, HasOwnClosure, HasOwnClosureIfMarked, TargetsBringOwn, items_in_state};
ghost use Rattle.lalrpop_lr1_check.specs.MarkLists.{AreLentMarks};
ghost use Rattle.lalrpop_lr1_check.specs.RuleLists.{AreNameLists};
ghost use Rattle.lalrpop_lr1_check.specs.UnmovedItems.{AreItemsOf};

use crate::closure::listed_marks::ListedMarks;
use crate::closure::name_lists::NameLists;
use crate::closure::names_behind::{begun_names, mark_brought_names};
use crate::closure::targets::targets_of;
use crate::closure::unmoved::are_items_of_names;
use lalrpop_grammar_symbols::NonterminalString;
use lalrpop_lr1_barren::reachable::is_marked;
use lalrpop_lr1_core::{Lr1Item, Lr1State};
use lalrpop_lr1_first::Numbered;
use std::alloc::{AllocError, Global};

/// The items of the first state; none where there is no state.
fn first_items<'s, 'g>(states: &'s [Lr1State<'g>]) -> &'s [Lr1Item<'g>]
    ensures { result.now ≡ items_in_state states.now 0 }
{
    if states.len() > 0 {
        states[0].items.vec.as_slice()
    } else {
        &[]
    }
}

/// Whether the dot is in front.
fn is_unmoved(item: &Lr1Item<'_>) -> bool
    ensures { IsTrue result ↔ (item.now.index ≡ 0) }
{
    item.index == 0
}

/// Whether the dots of all of the items are in front.
fn are_unmoved(items: &[Lr1Item<'_>]) -> bool
    ensures { IsTrue result ↔ HoldsAtEach (λ _ item. item.index ≡ 0) items.now }
{
    for item in items {
        if !is_unmoved(item) {
            return false;
        }
    }
    true
}

/// Whether the items with the dot in front are the productions of just the names that the start begins with.
fn are_begun(
    alloc: Global,
    table: &Numbered<'_>,
    lists: &NameLists,
    start: &NonterminalString,
    items: &[Lr1Item<'_>],
) -> Result<bool, AllocError>
    requires table { IsNumberTable table.now }
    requires lists { AreNameLists table.now lists.now }
    ensures { IfOk result (λ are. IsTrue are ↔ AreItemsOf (IsSeenIn (table_productions table.now)) items.now
        (IsNameBegun (IsSeenIn (table_productions table.now)) start.now.0)) }
{
    let names = begun_names(alloc, table, lists.begins.as_slice(), start)?;
    let mut productions = ListedMarks::new(alloc, table.productions().len())?;
    let are = are_items_of_names(
        table,
        lists.rules.as_slice(),
        items,
        &names,
        &mut productions,
    )?;
    Ok(are)
}

/// Whether the dots of all of the items are in front, and they are the productions of just the names that the start begins with.
fn has_start_closure(
    alloc: Global,
    table: &Numbered<'_>,
    lists: &NameLists,
    start: &NonterminalString,
    items: &[Lr1Item<'_>],
) -> Result<bool, AllocError>
    requires table { IsNumberTable table.now }
    requires lists { AreNameLists table.now lists.now }
    ensures { IfOk result (λ brings. IsTrue brings
        ↔ HasStartClosure (IsSeenIn (table_productions table.now)) start.now.0 items.now) }
{
    if are_unmoved(items) {
        let are = are_begun(alloc, table, lists, start, items)?;
        Ok(are)
    } else {
        Ok(false)
    }
}

/// Whether the items with the dot in front are the productions of just the names that the others bring. The marks of names and of
/// productions are lent: those that are set are taken back first.
fn has_own_closure(
    table: &Numbered<'_>,
    lists: &NameLists,
    items: &[Lr1Item<'_>],
    names: &mut ListedMarks,
    productions: &mut ListedMarks,
) -> Result<bool, AllocError>
    requires table { IsNumberTable table.now }
    requires lists { AreNameLists table.now lists.now }
    requires lent { AreLentMarks table.now names.old productions.old }
    ensures brings { IfOk result (λ brings. IsTrue brings ↔ HasOwnClosure (IsSeenIn (table_productions table.now)) items.now) }
    ensures lent { IfOk result (λ brings. IsTrue brings → AreLentMarks table.now names.new productions.new) }
{
    mark_brought_names(table, lists.begins.as_slice(), items, names)?;
    let brings = are_items_of_names(table, lists.rules.as_slice(), items, names, productions)?;
    Ok(brings)
}

/// Whether they are, where an edge leads to the state.
fn has_own_closure_if_marked(
    table: &Numbered<'_>,
    lists: &NameLists,
    is_target: bool,
    items: &[Lr1Item<'_>],
    names: &mut ListedMarks,
    productions: &mut ListedMarks,
) -> Result<bool, AllocError>
    requires table { IsNumberTable table.now }
    requires lists { AreNameLists table.now lists.now }
    requires lent { AreLentMarks table.now names.old productions.old }
    ensures brings { IfOk result (λ brings. IsTrue brings
        ↔ (IsTrue is_target → HasOwnClosure (IsSeenIn (table_productions table.now)) items.now)) }
    ensures lent { IfOk result (λ brings. IsTrue brings → AreLentMarks table.now names.new productions.new) }
{
    if is_target {
        let brings = has_own_closure(table, lists, items, names, productions)?;
        Ok(brings)
    } else {
        Ok(true)
    }
}

/// Whether in each of the marked states the items with the dot in front are those that the others bring. Marks of names and of
/// productions are lent from state to state.
fn each_has_own_closure(
    table: &Numbered<'_>,
    lists: &NameLists,
    targets: &[bool],
    states: &[Lr1State<'_>],
    names: &mut ListedMarks,
    productions: &mut ListedMarks,
) -> Result<bool, AllocError>
    requires table { IsNumberTable table.now }
    requires lists { AreNameLists table.now lists.now }
    requires lent { AreLentMarks table.now names.old productions.old }
    ensures { IfOk result (λ all. IsTrue all
        ↔ HoldsAtEach (HasOwnClosureIfMarked (IsSeenIn (table_productions table.now)) targets.now) states.now) }
{
    for number in 0..states.len() {
        let brings = has_own_closure_if_marked(
            table,
            lists,
            is_marked(targets, number),
            states[number].items.vec.as_slice(),
            names,
            productions,
        )?;
        if !brings {
            return Ok(false);
        }
    }
    Ok(true)
}

/// Whether in each of the marked states the items with the dot in front are those that the others bring.
fn all_have_own_closure(
    alloc: Global,
    table: &Numbered<'_>,
    lists: &NameLists,
    targets: &[bool],
    states: &[Lr1State<'_>],
) -> Result<bool, AllocError>
    requires table { IsNumberTable table.now }
    requires lists { AreNameLists table.now lists.now }
    ensures { IfOk result (λ all. IsTrue all
        ↔ HoldsAtEach (HasOwnClosureIfMarked (IsSeenIn (table_productions table.now)) targets.now) states.now) }
{
    let mut names = ListedMarks::new(alloc, table.names().len())?;
    let mut productions = ListedMarks::new(alloc, table.productions().len())?;
    each_has_own_closure(table, lists, targets, states, &mut names, &mut productions)
}

/// Whether in each state to which an edge leads the items with the dot in front are those that the others bring.
fn targets_have_own_closure(
    alloc: Global,
    table: &Numbered<'_>,
    lists: &NameLists,
    states: &[Lr1State<'_>],
) -> Result<bool, AllocError>
    requires table { IsNumberTable table.now }
    requires lists { AreNameLists table.now lists.now }
    ensures { IfOk result (λ all. IsTrue all ↔ TargetsBringOwn (IsSeenIn (table_productions table.now)) states.now) }
{
    let targets = targets_of(alloc, states)?;
    let all = all_have_own_closure(alloc, table, lists, targets.as_slice(), states)?;
    Ok(all)
}

/// Whether the items with the dot in front are those that the others bring, and in state 0, where no item has moved, those that
/// the start brings.
///
/// # Errors
///
/// Memory is refused.
pub fn has_closure_items(
    alloc: Global,
    table: &Numbered<'_>,
    start: &NonterminalString,
    states: &[Lr1State<'_>],
) -> Result<bool, AllocError>
    requires { IsNumberTable table.now }
    ensures { IfOk result (λ brings. (look : List ℕ → LookaheadSet) → let seen = map (lr_state_view look) states.now in
        IsTrue brings ↔ HasClosureItems (IsSeenIn (table_productions table.now)) start.now.0 (HasItem seen) (HasEdge seen)) }
{
    let lists = NameLists::new(alloc, table)?;
    let from_start = has_start_closure(alloc, table, &lists, start, first_items(states))?;
    if from_start {
        let all = targets_have_own_closure(alloc, table, &lists, states)?;
        Ok(all)
    } else {
        Ok(false)
    }
}
