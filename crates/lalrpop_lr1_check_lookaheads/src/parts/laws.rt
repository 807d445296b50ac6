//! What the parts of the test say together.

ghost use Rattle.lalrpop_lr1_check_lookaheads.specs.CheckedTests.{CheckedArePassed};

/// The law that states may be parsed with exactly where they pass all tests.
pub fn checked_are_passed()
    ensures { CheckedArePassed }
{}
