//! The case partners of the characters of a range, from a table of pairs.

ghost use Rattle.std.specs.Prelude.{◌≡◌, ◌≤◌, ◌++◌, nat_le, nat_lt, IfOk, OnOk};
ghost use Rattle.std.specs.List.{filter};
ghost use Rattle.std.specs.List.Sorted.{IsNonDecreasingBy};
ghost use Rattle.lalrpop_lexer_pattern.specs.Partners.{partners_of};
ghost use Rattle.lalrpop_lexer_pattern.specs.Sets.{in_range};

use crate::class::Range;
use std::alloc::AllocError;

/// Whether the range holds the character.
#[tactic(auto, unfolding(crate::specs::Sets::in_range))]
fn holds(range: Range, character: u32) -> bool
    ensures { result ≡ in_range range character }
{
    range.start <= character && character <= range.end
}

/// The pairs that begin with the character or a greater one, of pairs in order.
fn pairs_from(start: u32, pairs: &[(u32, u32)]) -> &[(u32, u32)]
    requires { IsNonDecreasingBy (λ p. p.0) pairs.now }
    ensures { result.now ≡ filter (λ p. nat_le start p.0) pairs.now }
{
    // Most ranges of a large set lie between two pairs, which needs no search.
    if let Some((first, _)) = pairs.first()
        && start <= *first
    {
        return pairs;
    }
    let before = pairs.partition_point(|pair| pair.0 < start);
    pairs.split_at(before).1
}

/// Adds the partners of the range's characters, and gives the pairs that begin after the range, of pairs in order. Fails
/// for want of memory alone.
pub(crate) fn push_partners<'a>(
    ranges: &mut Vec<Range>,
    range: Range,
    pairs: &'a [(u32, u32)],
) -> Result<&'a [(u32, u32)], AllocError>
    requires rising { IsNonDecreasingBy (λ p. p.0) pairs.now }
    requires ordered { range.start ≤ range.end }
    ensures added { OnOk result (ranges.new.items ≡ ranges.old.items ++ partners_of range pairs.now) }
    ensures rest { IfOk result (λ rest. rest.now ≡ filter (λ p. nat_lt range.end p.0) pairs.now) }
{
    let mut rest = pairs_from(range.start, pairs);
    while let Some(((from, to), more)) = rest.split_first() {
        if range.end < *from {
            break;
        }
        if !holds(range, *to) {
            ranges.push(Range {
                start: *to,
                end: *to,
            })?;
        }
        rest = more;
    }
    Ok(rest)
}
