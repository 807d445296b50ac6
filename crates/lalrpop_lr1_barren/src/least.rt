//! The least barren nonterminal by name.

ghost use Rattle.std.specs.Prelude.{◌≡◌, ◌↔◌, Contains, IfOk, IsFalse, IsTrue};
ghost use Rattle.lalrpop_lr1_theory.specs.ValidItems.{NoneBarren};
ghost use Rattle.lalrpop_lr1_core.specs.TheoryGrammars.{theory_grammar};
ghost use Rattle.lalrpop_lr1_barren.specs.Clauses.{IsMarked};
ghost use Rattle.lalrpop_lr1_first.specs.NumberedGrammars.{HasItsTerminals, IsNumberTable, IsSeenIn, table_productions};
ghost use Rattle.lalrpop_lr1_barren.specs.LeastBarren.{IsFirstMissing, IsLeastBarren};

use crate::reachable::{is_marked, place_of, productive_names, reached_names};
use lalrpop_grammar_repr::Grammar;
use lalrpop_grammar_symbols::NonterminalString;
use lalrpop_lr1_first::Numbered;
use std::alloc::{AllocError, Global};

/// Whether the number is marked in the first and isn't in the second.
fn is_lacking(first: &[bool], second: &[bool], number: usize) -> bool
    ensures lacks { IsTrue result → IsMarked first.now number × (IsMarked second.now number → ⊥) }
    ensures kept { IsFalse result → IsMarked first.now number → IsMarked second.now number }
{
    is_marked(first, number) && !is_marked(second, number)
}

/// The first number that is marked in the first and isn't in the second, if there is one.
fn first_lacking(first: &[bool], second: &[bool]) -> Option<usize>
    ensures { IsFirstMissing first.now second.now result }
{
    for number in 0..first.len() {
        if is_lacking(first, second, number) {
            return Some(number);
        }
    }
    None
}

/// The least name that the start reaches and that has no finite tree, by a table of the grammar's names in order.
fn least_by_table(
    alloc: Global,
    table: &Numbered<'_>,
    start: &NonterminalString,
) -> Result<Option<NonterminalString>, AllocError>
    requires { IsNumberTable table.now }
    ensures { IfOk result (IsLeastBarren (IsSeenIn (table_productions table.now)) start.now.0) }
{
    match place_of(table.names(), start) {
        None => Ok(Some(start.try_clone()?)),
        Some(place) => {
            let productive = productive_names(alloc, table)?;
            let reached = reached_names(alloc, table, place)?;
            match first_lacking(reached.as_slice(), productive.as_slice()) {
                None => Ok(None),
                Some(number) => Ok(Some(table.names()[number].try_clone()?)),
            }
        }
    }
}

/// Whether nothing that the start reaches is barren: each nonterminal that it reaches, itself among them, has a finite tree.
///
/// # Errors
///
/// Memory is refused.
pub fn none_is_barren(
    alloc: Global,
    table: &Numbered<'_>,
    start: &NonterminalString,
) -> Result<bool, AllocError>
    requires { IsNumberTable table.now }
    ensures { IfOk result (λ none. IsTrue none ↔ NoneBarren (IsSeenIn (table_productions table.now)) start.now.0) }
{
    let least = least_by_table(alloc, table, start)?;
    Ok(least.is_none())
}

/// The barren nonterminal that is least by name: the start reaches it, itself among those that it reaches, and no finite tree has it
/// at its root. None where each nonterminal that the start reaches has a finite tree.
///
/// The terminals of the grammar are numbered by their places, and each terminal on a right side is one of them.
///
/// # Errors
///
/// Memory is refused.
pub fn barren_nonterminal(
    alloc: Global,
    grammar: &Grammar,
    start: &NonterminalString,
) -> Result<Option<NonterminalString>, AllocError>
    requires { HasItsTerminals grammar.now }
    ensures { IfOk result (IsLeastBarren (Contains (theory_grammar grammar.now)) start.now.0) }
{
    let table = Numbered::new(alloc, grammar)?;
    let found = least_by_table(alloc, &table, start)?;
    Ok(found)
}
