//! The number, the order and the hash of the numbers of a set: those of its ascending list.

ghost use Rattle.std.specs.Prelude.{◌≡◌, length, fold};
ghost use Rattle.std.specs.Cmp.Lexicographic.{slice_cmp};
ghost use Rattle.std.specs.Hash as fed;
ghost use Rattle.std.specs.Ordering.{nat_cmp};
ghost use Rattle.lalrpop_sets.specs.Ranges.{RangesFrom};
ghost use Rattle.lalrpop_sets.specs.RangeWalks.{ended_order, numbers_to_come, ranges_to_come};

use crate::common::{both_heads, overlap};
use crate::range_walk::RangeWalk;
use crate::token_range::{TokenRange, numbers_in};
use std::cmp::Ordering;
use std::hash::Hasher;

/// How many numbers there are.
pub(crate) fn count(mut walk: RangeWalk<'_>) -> usize
    requires { RangesFrom 1 0 (ranges_to_come walk) }
    ensures { result ≡ length (numbers_to_come walk.entry) }
{
    let mut counted = 0;
    while let Some(range) = walk.next_range() {
        counted += numbers_in(range);
    }
    counted
}

/// The order of two walks, at least one of which has passed all.
fn end_order(one: Option<TokenRange>, other: Option<TokenRange>) -> Ordering
    ensures { result ≡ ended_order one other }
{
    match (one, other) {
        (None, None) => Ordering::Equal,
        (None, Some(_)) => Ordering::Less,
        (Some(_), _) => Ordering::Greater,
    }
}

/// The order of the ascending lists of numbers: the first place where the ranges part decides.
pub(crate) fn compare(mut one: RangeWalk<'_>, mut other: RangeWalk<'_>) -> Ordering
    requires one { RangesFrom 1 0 (ranges_to_come one) }
    requires other { RangesFrom 1 0 (ranges_to_come other) }
    ensures { result ≡ slice_cmp nat_cmp (numbers_to_come one.entry) (numbers_to_come other.entry) }
{
    while let Some((range, next)) = both_heads(&one, &other) {
        if range.first != next.first {
            return range.first.cmp(&next.first);
        }
        let last = overlap(range, next).last;
        one.pass_up_to(range, last);
        other.pass_up_to(next, last);
    }
    end_order(one.head, other.head)
}

/// Feeds the list of the numbers.
pub(crate) fn hash_numbers<H: Hasher>(walk: RangeWalk<'_>, state: &mut H)
    requires { RangesFrom 1 0 (ranges_to_come walk) }
    ensures { state.new ≡ fold H.write state.old (fed.slice fed.usize (numbers_to_come walk.entry)) }
{
    state.write_usize(count(walk));
    let mut left = walk;
    while let Some(number) = left.next_number() {
        state.write_usize(number);
    }
}
