//! Unions of many sets of characters.

ghost use Rattle.std.specs.Prelude.{◌≡◌, [], IfOk};
ghost use Rattle.lalrpop_lexer_pattern.specs.Sets.{union_of};

use crate::class::Range;
use crate::set::CharacterSet;
use std::alloc::{AllocError, Global};
use std::marker::Model;

/// How many ranges are gathered at least before they are sorted and joined.
const MIN_ROOM: usize = 1024;

/// The union of some sets of characters, while more are added.
///
/// Ranges are gathered as they come, and sorted and joined each time that they have become twice as many. So many sets
/// take near linear time, and no more room than their union does.
#[derive(Drop)]
pub struct CharacterSetBuilder {
    /// The ranges of the sets, in any order.
    ranges: Vec<Range>,
    /// How many ranges there may be before they are sorted and joined.
    room: usize,
}

impl Model for CharacterSetBuilder {
    ghost use Rattle.std.specs.Prelude.{List};
    ghost use Rattle.lalrpop_lexer_pattern.specs.Sets.{in_ranges, ranges_of};
    ghost use Rattle.lalrpop_lexer_pattern.specs.declared.class.Range.{Range};

    ghost Value = { List Range };

    ghost view = { λ builder. ranges_of (in_ranges builder.ranges.items) };
}

impl CharacterSetBuilder {
    /// The union of no sets, which has no members.
    pub fn new(alloc: Global) -> CharacterSetBuilder
        ensures { result ≡ [] }
    {
        CharacterSetBuilder {
            ranges: Vec::new(alloc),
            room: MIN_ROOM,
        }
    }

    /// The union with one more set. Fails for want of memory alone.
    pub fn with(self, set: &CharacterSet) -> Result<CharacterSetBuilder, AllocError>
        ensures { IfOk result (λ more. more ≡ union_of self set.now.ranges.items) }
    {
        let mut ranges = self.ranges;
        ranges.extend_from_slice(&set.ranges)?;
        if ranges.len() <= self.room {
            return Ok(CharacterSetBuilder {
                ranges,
                room: self.room,
            });
        }
        let ranges = CharacterSet::from_ranges(ranges)?.ranges;
        let room = ranges.len().saturating_mul(2).max(MIN_ROOM);
        Ok(CharacterSetBuilder { ranges, room })
    }

    /// The set of all members. Fails for want of memory alone.
    pub fn build(self) -> Result<CharacterSet, AllocError>
        ensures { IfOk result (λ set. set.ranges.items ≡ self) }
    {
        CharacterSet::from_ranges(self.ranges)
    }
}
