//! Whether the items with the dot in front are the productions of marked names.

ghost use Rattle.std.specs.Prelude.{◌≡◌, ◌↔◌, [], Contains, IfOk, IsTrue, OnOk, Some, length, slice_get, slice_index_or};
ghost use Rattle.lalrpop_lr1_least_trees.specs.Searches.{number_lists};
ghost use Rattle.lalrpop_lr1_first.specs.NumberedGrammars.{IsNumberTable, table_productions};
ghost use Rattle.lalrpop_lr1_barren.specs.Clauses.{IsMarked};
ghost use Rattle.lalrpop_lr1_check_lookaheads.specs.ListTests.{HoldsAtEach};
ghost use Rattle.lalrpop_lr1_check.specs.MarkGains.{IsMarkOfSome};
ghost use Rattle.lalrpop_lr1_check.specs.MarkLists.{AreListed, AreMarksFor, GainsListed};
ghost use Rattle.lalrpop_lr1_check.specs.RuleLists.{AreRuleLists, HasMarkedName};
ghost use Rattle.lalrpop_lr1_check.specs.UnmovedItems.{AreUnmovedOf, IsKnownUnmoved, IsUnmovedAt};

use crate::closure::closing::listed_for;
use crate::closure::listed_marks::ListedMarks;
use crate::closure::lookup::place_of_production;
use lalrpop_grammar_repr::Production;
use lalrpop_lr1_barren::reachable::is_marked;
use lalrpop_lr1_core::Lr1Item;
use lalrpop_lr1_first::{Numbered, NumberedRule};
use std::alloc::AllocError;

/// Marks the production, where it is one of the table's, and says whether it is.
fn mark_production(
    table: &Numbered<'_>,
    production: &Production,
    marks: &mut ListedMarks,
) -> Result<bool, AllocError>
    requires table { IsNumberTable table.now }
    requires count { length marks.old.marks.items ≡ length table.now.productions.items }
    ensures known { IfOk result (λ known. IsTrue known ↔ Contains (table_productions table.now) production.now) }
    ensures marks { OnOk result (GainsListed marks.old marks.new (λ r. slice_get (table_productions table.now) r ≡ Some production.now)) }
{
    match place_of_production(table.productions(), production) {
        None => Ok(false),
        Some(place) => {
            marks.mark(place)?;
            Ok(true)
        }
    }
}

/// Marks the item's production, where its dot is in front, and says whether it is one of the table's then.
fn mark_if_unmoved(
    table: &Numbered<'_>,
    item: &Lr1Item<'_>,
    marks: &mut ListedMarks,
) -> Result<bool, AllocError>
    requires table { IsNumberTable table.now }
    requires count { length marks.old.marks.items ≡ length table.now.productions.items }
    ensures known { IfOk result (λ known. IsTrue known ↔ IsKnownUnmoved table.now item.now) }
    ensures marks { OnOk result (GainsListed marks.old marks.new (IsUnmovedAt table.now item.now)) }
{
    if item.index == 0 {
        let known = mark_production(table, item.production, marks)?;
        Ok(known)
    } else {
        Ok(true)
    }
}

/// Marks the productions of the items with the dot in front, and says whether all of these are the table's.
fn mark_unmoved(
    table: &Numbered<'_>,
    items: &[Lr1Item<'_>],
    marks: &mut ListedMarks,
) -> Result<bool, AllocError>
    requires table { IsNumberTable table.now }
    requires count { length marks.old.marks.items ≡ length table.now.productions.items }
    ensures known { IfOk result (λ known. IsTrue known ↔ HoldsAtEach (λ _ item. IsKnownUnmoved table.now item) items.now) }
    ensures marks { IfOk result (λ known. IsTrue known
        → GainsListed marks.old marks.new (IsMarkOfSome (IsUnmovedAt table.now) items.now)) }
{
    for item in items {
        let known = mark_if_unmoved(table, item, marks)?;
        if !known {
            return Ok(false);
        }
    }
    Ok(true)
}

/// Whether the name of the rule with this number is marked, if there is such a rule.
fn has_marked_name(rules: &[NumberedRule], number: usize, names: &[bool]) -> bool
    ensures { IsTrue result ↔ HasMarkedName rules.now names.now number }
{
    match rules.get(number) {
        None => true,
        Some(rule) => is_marked(names, rule.left),
    }
}

/// Whether the names of all rules with these numbers are marked.
fn have_marked_names(rules: &[NumberedRule], numbers: &[usize], names: &[bool]) -> bool
    ensures { IsTrue result ↔ HoldsAtEach (λ _ r. HasMarkedName rules.now names.now r) numbers.now }
{
    for number in numbers {
        if !has_marked_name(rules, *number, names) {
            return false;
        }
    }
    true
}

/// Whether all of the numbers are marked.
fn are_marked(numbers: &[usize], marks: &[bool]) -> bool
    ensures { IsTrue result ↔ HoldsAtEach (λ _ n. IsMarked marks.now n) numbers.now }
{
    for number in numbers {
        if !is_marked(marks, *number) {
            return false;
        }
    }
    true
}

/// Whether all that is listed for these names is marked.
fn have_listed_marks(lists: &[Vec<usize>], names: &[usize], marks: &[bool]) -> bool
    ensures { IsTrue result ↔ HoldsAtEach (λ _ name. HoldsAtEach (λ _ n. IsMarked marks.now n)
        (slice_index_or (number_lists lists.now) name [])) names.now }
{
    for name in names {
        if !are_marked(listed_for(lists, *name), marks) {
            return false;
        }
    }
    true
}

/// Whether just the productions of marked names are marked.
fn are_of_marked_names(
    table: &Numbered<'_>,
    rules: &[Vec<usize>],
    productions: &ListedMarks,
    names: &ListedMarks,
) -> bool
    requires rules { AreRuleLists table.now (number_lists rules.now) }
    requires productions { AreListed productions.now }
    requires names { AreListed names.now }
    ensures { IsTrue result ↔ HoldsAtEach (λ r rule. IsMarked productions.now.marks.items r ↔ IsMarked names.now.marks.items rule.left)
        table.now.rules.items }
{
    have_marked_names(
        table.rules(),
        productions.numbers.as_slice(),
        names.marks.as_slice(),
    ) && have_listed_marks(
        rules,
        names.numbers.as_slice(),
        productions.marks.as_slice(),
    )
}

/// Whether the items with the dot in front are the productions of just the marked names. The marks of productions are lent: those
/// that are set are taken back first.
pub(crate) fn are_items_of_names(
    table: &Numbered<'_>,
    rules: &[Vec<usize>],
    items: &[Lr1Item<'_>],
    names: &ListedMarks,
    productions: &mut ListedMarks,
) -> Result<bool, AllocError>
    requires table { IsNumberTable table.now }
    requires rules { AreRuleLists table.now (number_lists rules.now) }
    requires names { AreListed names.now }
    requires productions { AreMarksFor (length table.now.productions.items) productions.old }
    ensures are { IfOk result (λ are. IsTrue are ↔ AreUnmovedOf table.now names.now.marks.items items.now) }
    ensures productions { IfOk result (λ are. IsTrue are → AreMarksFor (length table.now.productions.items) productions.new) }
{
    productions.take_back();
    let known = mark_unmoved(table, items, productions)?;
    if known {
        let are = are_of_marked_names(table, rules, productions, names);
        Ok(are)
    } else {
        Ok(false)
    }
}
