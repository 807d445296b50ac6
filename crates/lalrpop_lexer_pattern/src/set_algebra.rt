//! Operations on sets of characters: from ranges, membership, union, complement and case folding.

ghost use Rattle.std.specs.Prelude.{◌≡◌, ℕ, ◌≤◌, ◌+◌, ◌||◌, ◌&&◌, not, nat_le, [], ◌∷◌, IfOk, OnOk};
ghost use Rattle.lalrpop_lexer_pattern.specs.Sets.{in_range, in_ranges, ranges_of, union_of, complement_of, folded_of, StartsAtMost};

use crate::class::{Class, Range};
use crate::partners::push_partners;
use crate::set::CharacterSet;
use std::alloc::{AllocError, Global};
use unicode::case::fold_pairs;

/// The greatest code point.
const MAX: u32 = 0x10_FFFF;

/// The first and the last surrogate: code points that are no characters.
const SURROGATES: Range = Range {
    start: 0xD800,
    end: 0xDFFF,
};

impl CharacterSet {
    /// The set without members.
    pub fn empty(alloc: Global) -> CharacterSet
        ensures { result.ranges.items ≡ [] }
    {
        CharacterSet {
            ranges: Vec::new(alloc),
        }
    }

    /// The code points in any of the ranges, which come in any order. Fails for want of memory alone.
    ///
    /// A range whose start is above its end is empty.
    pub fn from_ranges(mut ranges: Vec<Range>) -> Result<CharacterSet, AllocError>
        ensures { IfOk result (λ set. set.ranges.items ≡ ranges_of (in_ranges ranges.items)) }
    {
        ranges.sort_unstable_by_key(|range| range.start);
        let mut set = CharacterSet::empty(*ranges.allocator());
        for range in ranges.iter() {
            let end = range.end.min(MAX);
            if range.start <= end {
                set.push(Range {
                    start: range.start,
                    end,
                })?;
            }
        }
        Ok(set)
    }

    /// Adds a range that starts no earlier than those already there. Fails for want of memory alone.
    fn push(&mut self, range: Range) -> Result<(), AllocError>
        requires ordered { range.start ≤ range.end }
        requires bounded { range.end ≤ MAX }
        requires last { StartsAtMost self.old.ranges.items range.start }
        ensures members { OnOk result ((c : ℕ) → in_ranges self.new.ranges.items c ≡ (in_ranges self.old.ranges.items c || in_range range c)) }
        ensures starts { OnOk result (StartsAtMost self.new.ranges.items range.start) }
    {
        let len = self.ranges.len();
        if len > 0 {
            let last = self.ranges[len - 1];
            if range.start <= last.end + 1 {
                self.ranges[len - 1] = Range {
                    start: last.start,
                    end: last.end.max(range.end),
                };
                return Ok(());
            }
        }
        self.ranges.push(range)?;
        Ok(())
    }

    /// Whether the number is a member.
    pub fn contains(&self, character: u32) -> bool
        ensures { result ≡ in_ranges self.now.ranges.items character }
    {
        let mut low = 0;
        let mut high = self.ranges.len();
        while low < high {
            let middle = low + (high - low) / 2;
            let range = self.ranges[middle];
            if character < range.start {
                high = middle;
            } else if range.end < character {
                low = middle + 1;
            } else {
                return true;
            }
        }
        false
    }

    /// The members of both sets. Fails for want of memory alone.
    pub fn union(self, other: &CharacterSet) -> Result<CharacterSet, AllocError>
        ensures { IfOk result (λ set. set.ranges.items ≡ union_of self.ranges.items other.now.ranges.items) }
    {
        let mut ranges = self.ranges;
        ranges.extend_from_slice(&other.ranges)?;
        CharacterSet::from_ranges(ranges)
    }

    /// The code points that are no members. Fails for want of memory alone.
    fn gaps(&self) -> Result<CharacterSet, AllocError>
        ensures { IfOk result (λ set. (c : ℕ) → in_ranges set.ranges.items c ≡ (nat_le c 0x10_FFFF && not (in_ranges self.now.ranges.items c))) }
    {
        let mut gaps = CharacterSet::empty(*self.ranges.allocator());
        let mut next = 0;
        for range in self.ranges.iter() {
            if next < range.start {
                gaps.push(Range {
                    start: next,
                    end: range.start - 1,
                })?;
            }
            next = range.end + 1;
        }
        if next <= MAX {
            gaps.push(Range {
                start: next,
                end: MAX,
            })?;
        }
        Ok(gaps)
    }

    /// The characters, that is scalar values, that are no members. Fails for want of memory alone.
    pub fn complement(self) -> Result<CharacterSet, AllocError>
        ensures { IfOk result (λ set. set.ranges.items ≡ complement_of self.ranges.items) }
    {
        let mut ranges = self.ranges;
        ranges.push(SURROGATES)?;
        CharacterSet::from_ranges(ranges)?.gaps()
    }

    /// The characters that share a simple case folding with a member. Fails for want of memory alone.
    pub fn fold_case(self) -> Result<CharacterSet, AllocError>
        ensures { IfOk result (λ set. set.ranges.items ≡ folded_of self.ranges.items) }
    {
        let mut ranges = Vec::from_slice(*self.ranges.allocator(), &self.ranges)?;
        let mut pairs = fold_pairs();
        for range in self.ranges.iter() {
            pairs = push_partners(&mut ranges, *range, pairs)?;
        }
        CharacterSet::from_ranges(ranges)
    }

    /// The class of the members.
    pub fn into_class(self) -> Class
        ensures { result.ranges ≡ self.ranges }
    {
        Class {
            ranges: self.ranges,
        }
    }
}
