//! The numbers that one of two sets has, as ranges.

ghost use Rattle.std.specs.Prelude.{◌≡◌, ◌≤◌, ◌<◌, ◌+◌, ◌||◌, ℕ, [], length, vec_capacity, IfOk, MatchOption};
ghost use Rattle.lalrpop_sets.specs.Ranges.{RangesFrom, is_covered, most_ranges};
ghost use Rattle.lalrpop_sets.specs.RangeWalks.{BeginFrom, IsJoinedFirst, IsOneTaken, goes_first, begins_within, ranges_to_come};

use crate::range_walk::RangeWalk;
use crate::token_range::{TokenRange, room_of};
use std::alloc::{AllocError, Global};

/// Whether there is a range, and it doesn't begin behind the other.
fn is_first(range: Option<TokenRange>, other: Option<TokenRange>) -> bool
    ensures { result ≡ goes_first range other }
{
    match (range, other) {
        (Some(range), Some(other)) => range.first <= other.first,
        (Some(_), None) => true,
        (None, _) => false,
    }
}

/// The range that comes first in both walks.
fn next_of_both(one: &mut RangeWalk<'_>, other: &mut RangeWalk<'_>) -> Option<TokenRange>
    ensures { let ps = ranges_to_come one.old in let qs = ranges_to_come other.old in
        MatchOption result ((ps ≡ []) × (qs ≡ []))
        (λ range. IsOneTaken ps qs range (ranges_to_come one.new) (ranges_to_come other.new)
        × BeginFrom range.first ps × BeginFrom range.first qs) }
{
    if is_first(one.head, other.head) {
        one.next_range()
    } else {
        other.next_range()
    }
}

/// Whether there is a range, and it begins at most there.
fn is_within(range: Option<TokenRange>, most: usize) -> bool
    ensures { result ≡ begins_within range most }
{
    match range {
        Some(range) => range.first as usize <= most,
        None => false,
    }
}

/// A range that is next in one of the walks and begins at most there.
fn next_within(
    one: &mut RangeWalk<'_>,
    other: &mut RangeWalk<'_>,
    most: usize,
) -> Option<TokenRange>
    ensures { let ps = ranges_to_come one.old in let qs = ranges_to_come other.old in
        MatchOption result ((ranges_to_come one.new ≡ ps) × (ranges_to_come other.new ≡ qs) × BeginFrom (most + 1) ps
        × BeginFrom (most + 1) qs)
        (λ range. IsOneTaken ps qs range (ranges_to_come one.new) (ranges_to_come other.new) × (range.first ≤ most)) }
{
    if is_within(one.head, most) {
        one.next_range()
    } else if is_within(other.head, most) {
        other.next_range()
    } else {
        None
    }
}

/// The longest range from the first number of both walks on, all numbers of which one of them has.
fn next_joined(one: &mut RangeWalk<'_>, other: &mut RangeWalk<'_>) -> Option<TokenRange>
    requires one { RangesFrom 1 0 (ranges_to_come one.old) }
    requires other { RangesFrom 1 0 (ranges_to_come other.old) }
    ensures first { let ps = ranges_to_come one.old in let qs = ranges_to_come other.old in
        MatchOption result ((ps ≡ []) × (qs ≡ []))
        (λ range. IsJoinedFirst ps qs range (ranges_to_come one.new) (ranges_to_come other.new)) }
{
    let mut range = next_of_both(one, other)?;
    while let Some(next) = next_within(one, other, range.last as usize + 1) {
        if range.last < next.last {
            range.last = next.last;
        }
    }
    Some(range)
}

/// How much room the ranges of the numbers that one of the walks has may need.
fn joined_room(mut one: RangeWalk<'_>, mut other: RangeWalk<'_>) -> usize
    requires one { RangesFrom 1 0 (ranges_to_come one) }
    requires other { RangesFrom 1 0 (ranges_to_come other) }
{
    let mut room: usize = 0;
    while let Some(range) = next_joined(&mut one, &mut other) {
        let more = room_of(range);
        room = room.saturating_add(more);
    }
    room
}

/// The ranges of the numbers that one of the walks has, with all the room that they may need.
pub(crate) fn joined_ranges(
    alloc: Global,
    mut one: RangeWalk<'_>,
    mut other: RangeWalk<'_>,
) -> Result<Vec<TokenRange>, AllocError>
    requires one { RangesFrom 1 0 (ranges_to_come one) }
    requires other { RangesFrom 1 0 (ranges_to_come other) }
    ensures covered { IfOk result (λ list. (k : ℕ)
        → is_covered list.items k ≡ (is_covered (ranges_to_come one.entry) k || is_covered (ranges_to_come other.entry) k)) }
    ensures apart { IfOk result (λ list. RangesFrom 2 0 list.items) }
    ensures room { IfOk result (λ list. most_ranges list.items ≤ vec_capacity list) }
{
    // all the room at once: walking twice costs less than growing
    let mut list = Vec::with_capacity(alloc, joined_room(one, other))?;
    let mut room = 0;
    while let Some(range) = next_joined(&mut one, &mut other) {
        list.push(range)?;
        room += room_of(range);
    }
    let more = room - list.len();
    list.reserve_exact(more)?;
    Ok(list)
}
