//! Walks over the ranges of a set, the end in its place among them.

ghost use Rattle.std.specs.Prelude.{◌≡◌, ◌+◌, ◌∷◌, [], Some, MatchOption};
ghost use Rattle.lalrpop_sets.specs.Ranges.{comes_first, left_behind, with_end};
ghost use Rattle.lalrpop_sets.specs.RangeWalks.{numbers_to_come, ranges_behind, ranges_to_come};

use crate::token_range::TokenRange;

/// What is still to be passed of a set: its ranges in order, the end as a range of its own.
#[derive(Clone, Copy)]
pub(crate) struct RangeWalk<'s> {
    /// The next range; none where all were passed.
    pub(crate) head: Option<TokenRange>,
    // The ranges behind it.
    ranges: &'s [TokenRange],
    // The end, where it stands behind it.
    end: Option<u32>,
}

impl<'s> RangeWalk<'s> {
    /// A walk over the ranges and the end.
    pub(crate) fn new(ranges: &'s [TokenRange], end: Option<u32>) -> RangeWalk<'s>
        ensures { ranges_to_come result ≡ with_end end ranges.now }
    {
        let mut walk = RangeWalk {
            head: None,
            ranges,
            end,
        };
        walk.pass();
        walk
    }

    /// Goes to the next range.
    pub(crate) fn pass(&mut self)
        ensures { ranges_to_come self.new ≡ ranges_behind self.old }
    {
        self.head = take_first(&mut self.ranges, &mut self.end);
    }

    /// The next range, which is passed.
    pub(crate) fn next_range(&mut self) -> Option<TokenRange>
        ensures { MatchOption result ((ranges_to_come self.old ≡ []) × (ranges_to_come self.new ≡ []))
            (λ range. ranges_to_come self.old ≡ range ∷ ranges_to_come self.new) }
    {
        let range = self.head?;
        self.pass();
        Some(range)
    }

    /// Passes the numbers up to one of them of the range that it is at.
    pub(crate) fn pass_up_to(&mut self, range: TokenRange, last: u32)
        ensures { ranges_to_come self.new ≡ left_behind last range (ranges_behind self.old) }
    {
        if last < range.last {
            self.head = Some(TokenRange {
                first: last + 1,
                last: range.last,
            });
        } else {
            self.pass();
        }
    }

    /// The next number.
    pub(crate) fn next_number(&mut self) -> Option<usize>
        ensures { MatchOption result ((numbers_to_come self.old ≡ []) × (numbers_to_come self.new ≡ []))
            (λ number. numbers_to_come self.old ≡ number ∷ numbers_to_come self.new) }
    {
        let range = self.head?;
        self.pass_up_to(range, range.first);
        Some(range.first as usize)
    }
}

/// Whether the end comes before all of the ranges.
fn is_end_next(ranges: &[TokenRange], end: Option<u32>) -> bool
    ensures { result ≡ comes_first end ranges.now }
{
    match (end, ranges.first()) {
        (Some(number), Some(range)) => number < range.first,
        (Some(_), None) => true,
        (None, _) => false,
    }
}

/// Takes the first of the ranges or the end, whatever comes first.
fn take_first(ranges: &mut &[TokenRange], end: &mut Option<u32>) -> Option<TokenRange>
    ensures { MatchOption result ((with_end end.old ranges.old.now ≡ []) × (with_end end.new ranges.new.now ≡ []))
        (λ range. with_end end.old ranges.old.now ≡ range ∷ with_end end.new ranges.new.now) }
{
    if is_end_next(ranges, *end) {
        let number = end.take()?;
        return Some(TokenRange {
            first: number,
            last: number,
        });
    }
    let (range, rest) = ranges.split_first()?;
    *ranges = rest;
    Some(*range)
}
