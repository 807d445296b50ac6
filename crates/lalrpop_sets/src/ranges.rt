//! Ranges of numbers that ascend and don't touch: where a number belongs among them, one number more or less.

ghost use Rattle.std.specs.Prelude.{◌≡◌, ◌≤◌, ◌<◌, ◌+◌, ◌-◌, ◌++◌, ◌||◌, ◌&&◌, ℕ, not, true, false, nat_eq, length, take, drop, vec_capacity};
ghost use Rattle.std.specs.List.{insert};
ghost use Rattle.std.specs.List.Sorted.{IsPartitionPoint};
ghost use Rattle.lalrpop_sets.specs.Ranges.{RangesFrom, is_covered, most_ranges};
ghost use Rattle.lalrpop_sets.specs.RangeEdits.{IsInFirst, begins_apart, begins_behind, begins_by, widened_to, with_new_number, without_number};

use crate::token_range::{TokenRange, room_of};

/// The place of the first range whose last number isn't below that number; how many ranges there are where all are below it.
fn first_from(ranges: &[TokenRange], number: usize) -> usize
    requires { RangesFrom 2 0 ranges.now }
    ensures within { result ≤ length ranges.now }
    ensures parts { IsPartitionPoint (λ r. r.last < number) (λ r. number ≤ r.last) ranges.now result }
{
    ranges.partition_point(|range| (range.last as usize) < number)
}

/// Whether there is a range at the place, and it begins at most at the number.
fn is_at(ranges: &[TokenRange], place: usize, number: usize) -> bool
    ensures { result ≡ begins_by number (drop place ranges.now) }
{
    match ranges.get(place) {
        Some(range) => range.first as usize <= number,
        None => false,
    }
}

/// Whether some range has the number.
pub(crate) fn has_range(ranges: &[TokenRange], number: usize) -> bool
    requires { RangesFrom 2 0 ranges.now }
    ensures { result ≡ is_covered ranges.now number }
{
    is_at(ranges, first_from(ranges, number), number)
}

/// How many ranges there can be once numbers were taken out of these.
pub(crate) fn room_for(ranges: &[TokenRange]) -> usize
    requires apart { RangesFrom 2 0 ranges.now }
    requires few { most_ranges ranges.now < 18446744073709551616 }
    ensures { result ≡ most_ranges ranges.now }
{
    let mut room = 0;
    let mut rest = ranges;
    while let Some((range, others)) = rest.split_first() {
        room += room_of(*range);
        rest = others;
    }
    room
}

/// Puts the range in at the place, within the room that there is.
fn insert_reserved(ranges: &mut Vec<TokenRange>, place: usize, range: TokenRange)
    requires room { length ranges.old.items < vec_capacity ranges.old }
    requires place { place ≤ length ranges.old.items }
    ensures items { ranges.new.items ≡ insert ranges.old.items place range }
    ensures capacity { vec_capacity ranges.new ≡ vec_capacity ranges.old }
{
    ranges.push_reserved(range);
    ranges.as_mut_slice()[place..].rotate_right(1);
}

/// Takes the number out of the range at the place, which has it.
fn take_from(ranges: &mut Vec<TokenRange>, place: usize, number: usize)
    requires place { place < length ranges.old.items }
    requires has { IsInFirst number (drop place ranges.old.items) }
    requires room { most_ranges ranges.old.items ≤ vec_capacity ranges.old }
    ensures items { ranges.new.items ≡ take place ranges.old.items ++ without_number number (drop place ranges.old.items) }
    ensures capacity { vec_capacity ranges.new ≡ vec_capacity ranges.old }
{
    let range = ranges[place];
    match (
        (range.first as usize) < number,
        number < range.last as usize,
    ) {
        (false, false) => {
            ranges.remove(place);
        }
        (false, true) => {
            ranges[place] = TokenRange {
                first: number as u32 + 1,
                last: range.last,
            };
        }
        (true, false) => {
            ranges[place] = TokenRange {
                first: range.first,
                last: number as u32 - 1,
            };
        }
        (true, true) => {
            ranges[place] = TokenRange {
                first: range.first,
                last: number as u32 - 1,
            };
            let behind = TokenRange {
                first: number as u32 + 1,
                last: range.last,
            };
            insert_reserved(ranges, place + 1, behind);
        }
    }
}

/// Takes the number out of the ranges, and says whether it was there. This takes no memory.
pub(crate) fn take_out(ranges: &mut Vec<TokenRange>, number: usize) -> bool
    requires apart { RangesFrom 2 0 ranges.old.items }
    requires room { most_ranges ranges.old.items ≤ vec_capacity ranges.old }
    ensures was { result ≡ is_covered ranges.old.items number }
    ensures gone { (k : ℕ) → is_covered ranges.new.items k ≡ (not (nat_eq k number) && is_covered ranges.old.items k) }
    ensures apart { RangesFrom 2 0 ranges.new.items }
    ensures room { most_ranges ranges.new.items ≤ vec_capacity ranges.new }
{
    let place = first_from(ranges.as_slice(), number);
    if is_at(ranges.as_slice(), place, number) {
        take_from(ranges, place, number);
        return true;
    }
    false
}

/// Lets the range at the place go on to the number behind it, and joins it with the next one where no number is between them.
fn widen_up_to(ranges: &mut Vec<TokenRange>, place: usize, number: u32)
    requires place { place < length ranges.old.items }
    ensures items { ranges.new.items ≡ take place ranges.old.items ++ widened_to number (drop place ranges.old.items) }
    ensures capacity { vec_capacity ranges.new ≡ vec_capacity ranges.old }
{
    let range = ranges[place];
    if is_next(ranges.as_slice(), place + 1, number) {
        let next = ranges.remove(place + 1);
        ranges[place] = TokenRange {
            first: range.first,
            last: next.last,
        };
    } else {
        ranges[place] = TokenRange {
            first: range.first,
            last: number,
        };
    }
}

/// Whether there is a range at the place, and it begins right behind the number.
fn is_next(ranges: &[TokenRange], place: usize, number: u32) -> bool
    ensures { result ≡ begins_behind number (drop place ranges.now) }
{
    match ranges.get(place) {
        Some(range) => range.first as usize == number as usize + 1,
        None => false,
    }
}

/// Whether no range at the place begins at the number's neighbour or before it.
fn is_alone(ranges: &[TokenRange], place: usize, number: u32) -> bool
    ensures { result ≡ begins_apart number (drop place ranges.now) }
{
    match ranges.get(place) {
        Some(range) => (number as usize) + 1 < range.first as usize,
        None => true,
    }
}

/// Puts the number in at the place where it belongs.
fn put_at(ranges: &mut Vec<TokenRange>, place: usize, number: u32)
    requires place { place ≤ length ranges.old.items }
    requires room { length ranges.old.items < vec_capacity ranges.old }
    ensures items { ranges.new.items ≡ take place ranges.old.items ++ with_new_number number (drop place ranges.old.items) }
    ensures capacity { vec_capacity ranges.new ≡ vec_capacity ranges.old }
{
    if is_alone(ranges.as_slice(), place, number) {
        let alone = TokenRange {
            first: number,
            last: number,
        };
        return insert_reserved(ranges, place, alone);
    }
    let range = ranges[place];
    if number < range.first {
        ranges[place] = TokenRange {
            first: number,
            last: range.last,
        };
    } else {
        widen_up_to(ranges, place, number);
    }
}

/// Puts a number in that the ranges lack, within the room that there is.
pub(crate) fn put_in(ranges: &mut Vec<TokenRange>, number: u32)
    requires apart { RangesFrom 2 0 ranges.old.items }
    requires lacks { is_covered ranges.old.items number ≡ false }
    requires room { most_ranges ranges.old.items < vec_capacity ranges.old }
    ensures put { (k : ℕ) → is_covered ranges.new.items k ≡ (nat_eq k number || is_covered ranges.old.items k) }
    ensures apart { RangesFrom 2 0 ranges.new.items }
    ensures room { most_ranges ranges.new.items ≤ vec_capacity ranges.new }
{
    let place = first_from(ranges.as_slice(), (number as usize).saturating_sub(1));
    put_at(ranges, place, number);
}
