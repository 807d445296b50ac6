//! The names that items bring: those that stand behind the dots of items that have moved, and all that these begin with.

ghost use Rattle.std.specs.Prelude.{◌≡◌, IfOk, OnOk, Some, length, slice_get};
ghost use Rattle.std.specs.Option.{option_copied};
ghost use Rattle.lalrpop_grammar_repr.specs.declared.production.Symbol.{Symbol};
ghost use Rattle.lalrpop_lr1_least_trees.specs.Searches.{number_lists};
ghost use Rattle.lalrpop_lr1_theory.specs.NameClosures.{IsMovedItem, IsNameBegun, IsNameBrought};
ghost use Rattle.lalrpop_lr1_first.specs.FirstNumbers.{name_count};
ghost use Rattle.lalrpop_lr1_first.specs.NumberedGrammars.{IsNumberTable, IsSeenIn, table_names, table_productions};
ghost use Rattle.lalrpop_lr1_check.specs.BeginClauses.{AreMarksOf};
ghost use Rattle.lalrpop_lr1_check.specs.BeginLists.{AreBeginLists};
ghost use Rattle.lalrpop_lr1_check.specs.MarkGains.{IsMarkOfSome};
ghost use Rattle.lalrpop_lr1_check.specs.MarkLists.{AreMarksFor, GainsListed};
ghost use Rattle.lalrpop_lr1_check.specs.NamesBehind.{HasSeenItem, IsNumberBehind, moved_name, name_of_symbol};

use crate::closure::closing::close_names;
use crate::closure::listed_marks::ListedMarks;
use lalrpop_grammar_repr::Symbol;
use lalrpop_grammar_symbols::NonterminalString;
use lalrpop_lr1_barren::reachable::place_of;
use lalrpop_lr1_core::Lr1Item;
use lalrpop_lr1_first::Numbered;
use std::alloc::{AllocError, Global};

/// The name of the symbol, if it is a nonterminal.
fn name_in<'s>(symbol: Option<&'s Symbol>) -> Option<&'s NonterminalString>
    ensures { option_copied result ≡ name_of_symbol (option_copied symbol.entry) }
{
    match symbol {
        None => None,
        Some(found) => match found {
            Symbol::Nonterminal(name) => Some(name),
            Symbol::Terminal(_) => None,
        },
    }
}

/// The name that stands behind the dot of the item, where it has moved.
fn name_behind_dot<'g>(item: &Lr1Item<'g>) -> Option<&'g NonterminalString>
    ensures { option_copied result ≡ moved_name item.now }
{
    if item.index > 0 {
        name_in(item.production.symbols.as_slice().get(item.index))
    } else {
        None
    }
}

/// Marks the name, where it is one of the table's.
fn mark_name(
    table: &Numbered<'_>,
    name: &NonterminalString,
    names: &mut ListedMarks,
) -> Result<(), AllocError>
    requires table { IsNumberTable table.now }
    requires count { length names.old.marks.items ≡ name_count table.now }
    ensures { OnOk result (GainsListed names.old names.new (λ s. slice_get (table_names table.now) s ≡ Some name.now)) }
{
    match place_of(table.names(), name) {
        None => Ok(()),
        Some(place) => {
            names.mark(place)?;
            Ok(())
        }
    }
}

/// Marks the name that stands behind the dot of the item, where it has moved.
fn mark_name_behind(
    table: &Numbered<'_>,
    item: &Lr1Item<'_>,
    names: &mut ListedMarks,
) -> Result<(), AllocError>
    requires table { IsNumberTable table.now }
    requires count { length names.old.marks.items ≡ name_count table.now }
    ensures { OnOk result (GainsListed names.old names.new (IsNumberBehind table.now item.now)) }
{
    match name_behind_dot(item) {
        None => Ok(()),
        Some(name) => {
            mark_name(table, name, names)?;
            Ok(())
        }
    }
}

/// Marks the names that stand behind the dots of the items that have moved.
fn mark_names_behind(
    table: &Numbered<'_>,
    items: &[Lr1Item<'_>],
    names: &mut ListedMarks,
) -> Result<(), AllocError>
    requires table { IsNumberTable table.now }
    requires count { length names.old.marks.items ≡ name_count table.now }
    ensures { OnOk result (GainsListed names.old names.new (IsMarkOfSome (IsNumberBehind table.now) items.now)) }
{
    for item in items {
        mark_name_behind(table, item, names)?;
    }
    Ok(())
}

/// The names that the start begins with.
pub(crate) fn begun_names(
    alloc: Global,
    table: &Numbered<'_>,
    begins: &[Vec<usize>],
    start: &NonterminalString,
) -> Result<ListedMarks, AllocError>
    requires table { IsNumberTable table.now }
    requires begins { AreBeginLists table.now (number_lists begins.now) }
    ensures names { IfOk result (λ names. AreMarksFor (name_count table.now) names) }
    ensures marks { IfOk result (λ names. AreMarksOf table.now names.marks.items
        (IsNameBegun (IsSeenIn (table_productions table.now)) start.now.0)) }
{
    let mut names = ListedMarks::new(alloc, table.names().len())?;
    mark_name(table, start, &mut names)?;
    close_names(table, begins, &mut names)?;
    Ok(names)
}

/// Marks just the names that the items bring which have moved.
pub(crate) fn mark_brought_names(
    table: &Numbered<'_>,
    begins: &[Vec<usize>],
    items: &[Lr1Item<'_>],
    names: &mut ListedMarks,
) -> Result<(), AllocError>
    requires table { IsNumberTable table.now }
    requires begins { AreBeginLists table.now (number_lists begins.now) }
    requires names { AreMarksFor (name_count table.now) names.old }
    ensures names { OnOk result (AreMarksFor (name_count table.now) names.new) }
    ensures marks { OnOk result (AreMarksOf table.now names.new.marks.items
        (IsNameBrought (IsSeenIn (table_productions table.now)) (IsMovedItem (HasSeenItem items.now)))) }
{
    names.take_back();
    mark_names_behind(table, items, names)?;
    close_names(table, begins, names)?;
    Ok(())
}
