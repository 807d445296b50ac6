//! Marks of numbers with the list of those that are marked: to take the marks back takes time by how many there are, not by how many
//! there may be.

ghost use Rattle.std.specs.Prelude.{◌≡◌, ◌∷◌, ℕ, [], IfOk, OnOk, false, length, set};
ghost use Rattle.lalrpop_lr1_barren.specs.Clauses.{has_mark};
ghost use Rattle.lalrpop_lr1_check.specs.BeginLists.{Queues};
ghost use Rattle.lalrpop_lr1_check.specs.MarkGains.{LosesMarks};
ghost use Rattle.lalrpop_lr1_check.specs.MarkLists.{AreListed, AreMarksFor};

use lalrpop_lr1_barren::reachable::{is_marked, no_marks, set_mark};
use std::alloc::{AllocError, Global};

/// Marks of numbers, to be set and taken back again and again.
#[derive(Drop)]
pub struct ListedMarks {
    // For each number whether it is marked.
    pub(crate) marks: Vec<bool>,
    // The numbers that are marked, in the order in which they were.
    pub(crate) numbers: Vec<usize>,
}

impl ListedMarks {
    /// As many marks that aren't set.
    pub(crate) fn new(alloc: Global, count: usize) -> Result<ListedMarks, AllocError>
        ensures marks { IfOk result (λ made. AreMarksFor count made) }
        ensures empty { IfOk result (λ made. (n : ℕ) → has_mark made.marks.items n ≡ false) }
    {
        let marks = no_marks(alloc, count)?;
        Ok(ListedMarks {
            marks,
            numbers: Vec::new(alloc),
        })
    }

    /// Marks the number, where there is a mark for it that isn't set.
    pub(crate) fn mark(&mut self, number: usize) -> Result<(), AllocError>
        ensures { OnOk result (Queues (number ∷ []) self.old.marks.items self.new.marks.items self.old.numbers.items self.new.numbers.items) }
    {
        if number < self.marks.len() && !is_marked(self.marks.as_slice(), number) {
            set_mark(&mut self.marks, number);
            self.numbers.push(number)?;
        }
        Ok(())
    }

    /// Takes all marks back.
    pub(crate) fn take_back(&mut self)
        requires { AreListed self.old }
        ensures count { length self.new.marks.items ≡ length self.old.marks.items }
        ensures empty { (n : ℕ) → has_mark self.new.marks.items n ≡ false }
        ensures listed { AreListed self.new }
    {
        unmark_all(self.numbers.as_slice(), &mut self.marks);
        self.numbers.clear();
    }
}

/// Takes one mark back, where there is one with this number.
fn unmark(number: usize, marks: &mut Vec<bool>)
    ensures { marks.new.items ≡ set marks.old.items number false }
{
    if number < marks.len() {
        marks[number] = false;
    }
}

/// Takes the marks of these numbers back.
fn unmark_all(numbers: &[usize], marks: &mut Vec<bool>)
    ensures { LosesMarks numbers.now marks.old.items marks.new.items }
{
    for number in numbers {
        unmark(*number, marks);
    }
}
