//! Tests: the ranges of numbers that transitions read.

ghost use Rattle.std.specs.Prelude.{◌≡◌, ℕ, ◌+◌, ◌-◌, ◌^◌, ◌<◌, ◌≤◌, ◌↔◌, IsTrue};
ghost use Rattle.std.specs.Range.{range_inclusive_start, range_inclusive_end};
ghost use Rattle.lalrpop_lexer_nfa.specs.Ranges.{TestHolds};

use std::ops::RangeInclusive;

/// The numbers from `start` to `end`, both included; none where `end` is below `start`.
///
/// Tests are ordered by their start, then by their end.
#[derive(Clone, Copy, PartialEq, Eq, PartialOrd, Ord, Hash)]
pub struct Test {
    pub(crate) start: u32,
    pub(crate) end: u32,
}

impl Test {
    /// The test of a range.
    pub fn new(range: RangeInclusive<u32>) -> Test
        ensures start { result.start ≡ range_inclusive_start range }
        ensures end { result.end ≡ range_inclusive_end range }
    {
        Test {
            start: *range.start(),
            end: *range.end(),
        }
    }

    /// The least number of the range.
    pub fn start(&self) -> u32
        ensures { result ≡ self.now.start }
    {
        self.start
    }

    /// The greatest number of the range.
    pub fn end(&self) -> u32
        ensures { result ≡ self.now.end }
    {
        self.end
    }

    /// The test of one character.
    pub fn char(c: char) -> Test
        ensures start { result.start ≡ c }
        ensures end { result.end ≡ c }
    {
        Test::between(c as u32, c as u32)
    }

    /// The test of one byte.
    pub fn byte(b: u8) -> Test
        ensures start { result.start ≡ b }
        ensures end { result.end ≡ b }
    {
        Test::between(u32::from(b), u32::from(b))
    }

    /// The characters from `s` to `e`, both included.
    pub fn inclusive_range(s: char, e: char) -> Test
        ensures start { result.start ≡ s }
        ensures end { result.end ≡ e }
    {
        Test::between(s as u32, e as u32)
    }

    /// The bytes from `s` to `e`, both included.
    pub fn inclusive_byte_range(s: u8, e: u8) -> Test
        ensures start { result.start ≡ s }
        ensures end { result.end ≡ e }
    {
        Test::between(u32::from(s), u32::from(e))
    }

    /// The characters from `s` to the number before `e`.
    pub fn exclusive_range(s: char, e: char) -> Test
        requires { s < e }
        ensures start { result.start ≡ s }
        ensures end { result.end + 1 ≡ e }
    {
        Test::between(s as u32, e as u32 - 1)
    }

    /// Whether the range has one number.
    pub fn is_char(&self) -> bool
        ensures { IsTrue result ↔ (self.now.start ≡ self.now.end) }
    {
        self.start == self.end
    }

    /// How many numbers the range has. The range of all `u32` has more than the answer can say.
    pub fn len(&self) -> u32
        requires { (self.now.end + 1) - self.now.start < 2 ^ 32 }
        ensures { result ≡ (self.now.end + 1) - self.now.start }
    {
        if self.is_empty() {
            0
        } else {
            self.end - self.start + 1
        }
    }

    /// Whether the range holds the number.
    pub fn contains_u32(&self, c: u32) -> bool
        ensures { IsTrue result ↔ TestHolds self.now c }
    {
        self.start <= c && c <= self.end
    }

    /// Whether the range holds the character.
    pub fn contains_char(&self, c: char) -> bool
        ensures { IsTrue result ↔ TestHolds self.now c }
    {
        self.contains_u32(c as u32)
    }

    /// Whether some number is in both ranges.
    pub fn intersects(&self, r: &Test) -> bool
        ensures { IsTrue result ↔ ((n : ℕ) × TestHolds self.now n × TestHolds r.now n) }
    {
        let start = self.start.max(r.start);
        let end = self.end.min(r.end);
        start <= end
    }

    /// Whether no number is in both ranges.
    pub fn is_disjoint(&self, r: &Test) -> bool
        ensures { IsTrue result ↔ ((n : ℕ) → TestHolds self.now n → TestHolds r.now n → ⊥) }
    {
        !self.intersects(r)
    }

    /// Whether the range has no number.
    pub fn is_empty(&self) -> bool
        ensures { IsTrue result ↔ (self.now.end < self.now.start) }
    {
        self.start > self.end
    }

    /// The numbers from `start` to `end`.
    pub(crate) fn between(start: u32, end: u32) -> Test
        ensures { result ≡ record { start = start; end = end } }
    {
        Test { start, end }
    }
}
