//! The names that have finite trees, and those that a start reaches.

ghost use Rattle.std.specs.Prelude.{◌≡◌, ◌<◌, ℕ, IfOk, false, length, set, true};
ghost use Rattle.lalrpop_lr1_first.specs.FirstNumbers.{name_count};
ghost use Rattle.lalrpop_lr1_first.specs.NumberedGrammars.{IsNumberTable};
ghost use Rattle.lalrpop_lr1_barren.specs.Clauses.{has_mark};
ghost use Rattle.lalrpop_lr1_barren.specs.NameMarks.{AreProductive, AreReached};

use crate::reachable::clauses::close;
use crate::reachable::rule_names::{reach_clauses, tree_clauses};
use lalrpop_lr1_first::Numbered;
use std::alloc::{AllocError, Global};

/// As many marks that aren't set.
pub fn no_marks(alloc: Global, count: usize) -> Result<Vec<bool>, AllocError>
    ensures count { IfOk result (λ marks. length marks.items ≡ count) }
    ensures empty { IfOk result (λ marks. (n : ℕ) → has_mark marks.items n ≡ false) }
{
    let mut marks = Vec::new(alloc);
    for _ in 0..count {
        marks.push(false)?;
    }
    Ok(marks)
}

/// The names that have finite trees.
///
/// # Errors
///
/// Memory is refused.
pub fn productive_names(alloc: Global, table: &Numbered<'_>) -> Result<Vec<bool>, AllocError>
    requires { IsNumberTable table.now }
    ensures { IfOk result (λ marks. AreProductive table.now marks.items) }
{
    let clauses = tree_clauses(alloc, table)?;
    let marks = no_marks(alloc, table.names().len())?;
    let closed = close(alloc, clauses.as_slice(), marks)?;
    Ok(closed)
}

/// Sets one mark.
pub fn set_mark(marks: &mut Vec<bool>, number: usize)
    requires { number < length marks.old.items }
    ensures { marks.new.items ≡ set marks.old.items number true }
{
    marks[number] = true;
}

/// The names that the name with this number reaches, itself among them.
///
/// # Errors
///
/// Memory is refused.
pub fn reached_names(
    alloc: Global,
    table: &Numbered<'_>,
    start: usize,
) -> Result<Vec<bool>, AllocError>
    requires table { IsNumberTable table.now }
    requires start { start < name_count table.now }
    ensures count { IfOk result (λ marks. length marks.items ≡ name_count table.now) }
    ensures reached { IfOk result (λ marks. AreReached table.now start marks.items) }
{
    let clauses = reach_clauses(alloc, table)?;
    let mut marks = no_marks(alloc, table.names().len())?;
    set_mark(&mut marks, start);
    let closed = close(alloc, clauses.as_slice(), marks)?;
    Ok(closed)
}
