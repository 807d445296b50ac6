//! Ranges that touch are joined, in place.

ghost use Rattle.std.specs.Prelude.{◌≡◌, ◌↔◌, ◌+◌, ◌<◌, ◌≤◌, ◌++◌, ◌∷◌, [], ℕ, IsFalse, IsTrue, drop, length, take};
ghost use Rattle.lalrpop_lexer_pattern.specs.Ranges.{HasRisingRanges, InRanges, IsCanonical};
ghost use Rattle.lalrpop_lexer_pattern.specs.TouchingRanges.{EndsBelow, kept_with};

use crate::class::Range;

/// Whether the second range, which starts above the end of the first, starts just behind that.
fn touches(first: Range, second: Range) -> bool
    requires { first.end < second.start }
    ensures { IsTrue result ↔ (first.end + 1 ≡ second.start) }
{
    first.end + 1 == second.start
}

/// Joins the range to the last of the first `kept`, where there are some and the last ends just below it, and says whether it did.
fn join_last(ranges: &mut Vec<Range>, kept: usize, range: Range) -> bool
    requires kept { kept ≤ length ranges.old.items }
    requires below { EndsBelow (take kept ranges.old.items) range.start }
    ensures count { length ranges.new.items ≡ length ranges.old.items }
    ensures rest { drop kept ranges.new.items ≡ drop kept ranges.old.items }
    ensures joined { IsTrue result → take kept ranges.new.items ≡ kept_with (take kept ranges.old.items) range }
    ensures apart { IsFalse result → (ranges.new.items ≡ ranges.old.items)
        × (kept_with (take kept ranges.old.items) range ≡ take kept ranges.old.items ++ range ∷ []) }
{
    if kept == 0 {
        return false;
    }
    let last = ranges[kept - 1];
    if !touches(last, range) {
        return false;
    }
    ranges[kept - 1] = Range {
        start: last.start,
        end: range.end,
    };
    true
}

/// Puts the range behind the first `kept`, or joins it to the last of them. Says how many are kept then.
fn keep(ranges: &mut Vec<Range>, kept: usize, range: Range) -> usize
    requires kept { kept < length ranges.old.items }
    requires below { EndsBelow (take kept ranges.old.items) range.start }
    ensures count { length ranges.new.items ≡ length ranges.old.items }
    ensures grows { result ≤ kept + 1 }
    ensures rest { drop (kept + 1) ranges.new.items ≡ drop (kept + 1) ranges.old.items }
    ensures kept { take result ranges.new.items ≡ kept_with (take kept ranges.old.items) range }
{
    if join_last(ranges, kept, range) {
        return kept;
    }
    ranges[kept] = range;
    kept + 1
}

/// Joins each range to the one before it where that one ends just below it. It takes no memory.
pub(crate) fn join_touching(ranges: &mut Vec<Range>)
    requires { HasRisingRanges ranges.old.items }
    ensures canonical { IsCanonical ranges.new.items }
    ensures members { (n : ℕ) → InRanges ranges.new.items n ↔ InRanges ranges.old.items n }
{
    let mut kept = 0;
    for index in 0..ranges.len() {
        let range = ranges[index];
        kept = keep(ranges, kept, range);
    }
    ranges.truncate(kept);
}
