//! Sets of characters that have names: digits, white space, characters of words, and Unicode properties.

ghost use Rattle.std.specs.Prelude.{◌≡◌, ℕ, Bool, IfOk};
ghost use Rattle.unicode.specs.Perl.{is_word_char, is_digit_char, is_space_char};
ghost use Rattle.unicode.specs.Rows.{HasExactly};
ghost use Rattle.unicode.specs.Sets.{in_set};
ghost use Rattle.lalrpop_lexer_pattern.specs.Sets.{ranges_of};

use crate::class::Range;
use crate::set::CharacterSet;
use std::alloc::{AllocError, Global};
use unicode::perl::{digit_ranges, space_ranges, word_ranges};
use unicode::sets::Set;

/// The code points in any of the pairs of a first and a last one: those that a test passes, where the pairs hold exactly these.
fn from_pairs(alloc: Global, pairs: &[(u32, u32)]) -> Result<CharacterSet, AllocError>
    ensures { (p : ℕ → Bool) → HasExactly pairs.now p → IfOk result (λ set. set.ranges.items ≡ ranges_of p) }
{
    let mut ranges = Vec::new(alloc);
    for (start, end) in pairs {
        ranges.push(Range {
            start: *start,
            end: *end,
        })?;
    }
    CharacterSet::from_ranges(ranges)
}

impl CharacterSet {
    /// The decimal digits of all scripts, `\d`. Fails for want of memory alone.
    pub fn digits(alloc: Global) -> Result<CharacterSet, AllocError>
        ensures { IfOk result (λ set. set.ranges.items ≡ ranges_of is_digit_char) }
    {
        from_pairs(alloc, &digit_ranges(alloc)?)
    }

    /// White space, `\s`. Fails for want of memory alone.
    pub fn spaces(alloc: Global) -> Result<CharacterSet, AllocError>
        ensures { IfOk result (λ set. set.ranges.items ≡ ranges_of is_space_char) }
    {
        from_pairs(alloc, &space_ranges(alloc)?)
    }

    /// The characters of words, `\w`. Fails for want of memory alone.
    pub fn words(alloc: Global) -> Result<CharacterSet, AllocError>
        ensures { IfOk result (λ set. set.ranges.items ≡ ranges_of is_word_char) }
    {
        from_pairs(alloc, &word_ranges(alloc)?)
    }

    /// The code points that a Unicode property names, `\p`. Fails for want of memory alone.
    pub fn with_property(alloc: Global, property: Set) -> Result<CharacterSet, AllocError>
        ensures { IfOk result (λ set. set.ranges.items ≡ ranges_of (in_set property)) }
    {
        from_pairs(alloc, &property.ranges(alloc)?)
    }
}
