//! The numbers that both of two sets have, and those that one of them lacks.

ghost use Rattle.std.specs.Prelude.{◌≡◌, ◌≤◌, ◌||◌, ◌&&◌, ℕ, true, false, nat_lt, if◌then◌else◌, IfOk, MatchOption, min, max};
ghost use Rattle.lalrpop_sets.specs.Ranges.{RangesFrom, is_covered, left_behind};
ghost use Rattle.lalrpop_sets.specs.RangeWalks.{IsBothPassed, IsCommonFirst, IsOnePassed, both_of, ranges_behind, ranges_to_come};

use crate::range_walk::RangeWalk;
use crate::token_range::TokenRange;
use std::alloc::{AllocError, Global};

/// The ranges that the walks are at; none where one of them has passed all.
pub(crate) fn both_heads(
    one: &RangeWalk<'_>,
    other: &RangeWalk<'_>,
) -> Option<(TokenRange, TokenRange)>
    ensures { result ≡ both_of one.now.head other.now.head }
{
    match (one.head, other.head) {
        (Some(range), Some(next)) => Some((range, next)),
        (Some(_), None) => None,
        (None, _) => None,
    }
}

/// The numbers that both ranges have.
pub(crate) fn overlap(one: TokenRange, other: TokenRange) -> TokenRange
    ensures first { result.first ≡ max one.first other.first }
    ensures last { result.last ≡ min one.last other.last }
{
    TokenRange {
        first: one.first.max(other.first),
        last: one.last.min(other.last),
    }
}

/// The numbers that the ranges have in common, which the walks over them pass. Where they have none, the one that ends
/// first is passed.
fn pass_common(
    one: &mut RangeWalk<'_>,
    other: &mut RangeWalk<'_>,
    range: TokenRange,
    next: TokenRange,
) -> Option<TokenRange>
    ensures { MatchOption result
        (IsOnePassed range next (ranges_to_come one.old) (ranges_behind one.old) (ranges_to_come other.old) (ranges_behind other.old)
        (ranges_to_come one.new) (ranges_to_come other.new))
        (λ both. IsBothPassed range next both (ranges_behind one.old) (ranges_behind other.old) (ranges_to_come one.new)
        (ranges_to_come other.new)) }
{
    if range.last < next.first {
        one.pass();
        return None;
    }
    if next.last < range.first {
        other.pass();
        return None;
    }
    let both = overlap(range, next);
    one.pass_up_to(range, both.last);
    other.pass_up_to(next, both.last);
    Some(both)
}

/// The first range of numbers that both walks have.
pub(crate) fn next_common(one: &mut RangeWalk<'_>, other: &mut RangeWalk<'_>) -> Option<TokenRange>
    requires one { RangesFrom 1 0 (ranges_to_come one.old) }
    requires other { RangesFrom 1 0 (ranges_to_come other.old) }
    ensures { let ps = ranges_to_come one.old in let qs = ranges_to_come other.old in
        MatchOption result ((k : ℕ) → (is_covered ps k && is_covered qs k) ≡ false)
        (λ range. IsCommonFirst ps qs range (ranges_to_come one.new) (ranges_to_come other.new)) }
{
    while let Some((range, next)) = both_heads(one, other) {
        let both = pass_common(one, other, range, next);
        if both.is_some() {
            return both;
        }
    }
    None
}

/// The ranges of the numbers that are in both, which may touch.
pub(crate) fn common(
    alloc: Global,
    mut one: RangeWalk<'_>,
    mut other: RangeWalk<'_>,
) -> Result<Vec<TokenRange>, AllocError>
    requires one { RangesFrom 1 0 (ranges_to_come one) }
    requires other { RangesFrom 1 0 (ranges_to_come other) }
    ensures covered { IfOk result (λ list. (k : ℕ)
        → is_covered list.items k ≡ (is_covered (ranges_to_come one.entry) k && is_covered (ranges_to_come other.entry) k)) }
    ensures ordered { IfOk result (λ list. RangesFrom 1 0 list.items) }
{
    let mut list = Vec::new(alloc);
    while let Some(range) = next_common(&mut one, &mut other) {
        list.push(range)?;
    }
    Ok(list)
}

/// Passes the range, where it ends before the wanted one, or else what it has of that one.
fn pass_had(
    one: &mut RangeWalk<'_>,
    other: &mut RangeWalk<'_>,
    range: TokenRange,
    wanted: TokenRange,
)
    ensures one { ranges_to_come one.new
        ≡ (if nat_lt range.last wanted.first then ranges_behind one.old else ranges_to_come one.old) }
    ensures other { ranges_to_come other.new
        ≡ (if nat_lt range.last wanted.first then ranges_to_come other.old else left_behind range.last wanted (ranges_behind other.old)) }
{
    if range.last < wanted.first {
        one.pass();
    } else {
        other.pass_up_to(wanted, range.last);
    }
}

/// The least number that the second walk has and the first lacks.
pub(crate) fn missing(mut one: RangeWalk<'_>, mut other: RangeWalk<'_>) -> Option<u32>
    requires one { RangesFrom 1 0 (ranges_to_come one) }
    requires other { RangesFrom 1 0 (ranges_to_come other) }
    ensures { let ps = ranges_to_come one.entry in let qs = ranges_to_come other.entry in
        MatchOption result ((k : ℕ) → is_covered qs k ≡ true → is_covered ps k ≡ true)
        (λ number. (is_covered qs number ≡ true) × (is_covered ps number ≡ false)) }
{
    while let Some((range, wanted)) = both_heads(&one, &other) {
        if wanted.first < range.first {
            return Some(wanted.first);
        }
        pass_had(&mut one, &mut other, range, wanted);
    }
    match other.head {
        Some(wanted) => Some(wanted.first),
        None => None,
    }
}
