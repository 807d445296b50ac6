//! Marks of names with all names with which these begin. A name is looked at once.

ghost use Rattle.std.specs.Prelude.{◌≡◌, ◌↔◌, ℕ, [], OnOk, flat_map, slice_index_or};
ghost use Rattle.lalrpop_lr1_least_trees.specs.Searches.{number_lists};
ghost use Rattle.lalrpop_lr1_first.specs.FirstNumbers.{name_count};
ghost use Rattle.lalrpop_lr1_first.specs.NumberedGrammars.{IsNumberTable};
ghost use Rattle.lalrpop_lr1_barren.specs.Clauses.{Follows, IsMarked};
ghost use Rattle.lalrpop_lr1_check.specs.BeginClauses.{begin_of_rule};
ghost use Rattle.lalrpop_lr1_check.specs.BeginLists.{AreBeginLists, Queues};
ghost use Rattle.lalrpop_lr1_check.specs.MarkLists.{AreMarksFor};

use crate::closure::listed_marks::ListedMarks;
use lalrpop_lr1_first::Numbered;
use std::alloc::AllocError;

/// Marks the numbers, and lists those that weren't marked.
fn mark_all(numbers: &[usize], marks: &mut ListedMarks) -> Result<(), AllocError>
    ensures { OnOk result (Queues numbers.now marks.old.marks.items marks.new.marks.items marks.old.numbers.items marks.new.numbers.items) }
{
    for number in numbers {
        marks.mark(*number)?;
    }
    Ok(())
}

/// What is listed for the name with this number; nothing where there is no such name.
pub(crate) fn listed_for(lists: &[Vec<usize>], number: usize) -> &[usize]
    ensures { result.now ≡ slice_index_or (number_lists lists.now) number [] }
{
    if number < lists.len() {
        lists[number].as_slice()
    } else {
        &[]
    }
}

/// Marks all names with which marked names begin.
pub(crate) fn close_names(
    table: &Numbered<'_>,
    begins: &[Vec<usize>],
    names: &mut ListedMarks,
) -> Result<(), AllocError>
    requires table { IsNumberTable table.now }
    requires begins { AreBeginLists table.now (number_lists begins.now) }
    requires names { AreMarksFor (name_count table.now) names.old }
    ensures names { OnOk result (AreMarksFor (name_count table.now) names.new) }
    ensures closed { OnOk result ((n : ℕ) → IsMarked names.new.marks.items n
        ↔ Follows (flat_map (begin_of_rule table.now) table.now.rules.items) names.old.marks.items n) }
{
    // the names that are listed on the way are looked at in their turn
    let mut done = 0;
    while done < names.numbers.len() {
        mark_all(listed_for(begins, names.numbers[done]), names)?;
        done += 1;
    }
    Ok(())
}
