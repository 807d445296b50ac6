//! Alphabet classes: the ranges into which all given ranges fall.

ghost use Rattle.std.specs.Prelude.{◌≡◌, ℕ, ◌+◌, ◌^◌, ◌<◌, ◌≤◌, ◌↔◌, IfOk, IsTrue, All, Contains, length};
ghost use Rattle.std.specs.List.Sorted.{IsNonDecreasing, IsNonDecreasingBy};
ghost use Rattle.lalrpop_lexer_nfa.specs.Ranges.{IsBoundary, IsCovered, AreAlphabetClasses, AreFurthestEnds, nth_test};

use crate::test::Test;
use std::alloc::{AllocError, Global};
use std::collections::BTreeSet;

/// Where a range begins, or the number after its end, for each range that has a number.
fn cuts(alloc: Global, ranges: &BTreeSet<Test>) -> Result<Vec<u64>, AllocError>
    ensures all { IfOk result (λ v. (n : ℕ) → IsBoundary ranges.now.keys n → Contains v.items n) }
    ensures only { IfOk result (λ v. (n : ℕ) → Contains v.items n → IsBoundary ranges.now.keys n) }
    ensures ascending { IfOk result (λ v. IsNonDecreasing v.items) }
    ensures within { IfOk result (λ v. All (λ n. n ≤ 2 ^ 32) v.items) }
{
    let mut cuts = Vec::new(alloc);
    for range in ranges.iter() {
        if range.start <= range.end {
            cuts.push(u64::from(range.start))?;
            cuts.push(u64::from(range.end) + 1)?;
        }
    }
    cuts.sort_unstable();
    Ok(cuts)
}

/// The ranges, ordered by where they begin.
fn in_order(alloc: Global, ranges: &BTreeSet<Test>) -> Result<Vec<Test>, AllocError>
    ensures all { IfOk result (λ v. (t : Test) → Contains ranges.now.keys t → Contains v.items t) }
    ensures only { IfOk result (λ v. (t : Test) → Contains v.items t → Contains ranges.now.keys t) }
    ensures ascending { IfOk result (λ v. IsNonDecreasingBy (λ t. t.start) v.items) }
{
    let mut ordered = Vec::new(alloc);
    for range in ranges.iter() {
        ordered.push(*range)?;
    }
    ordered.sort_unstable_by_key(|range| range.start);
    Ok(ordered)
}

/// For each of the ranges the greatest end among those up to it.
fn furthest_ends(alloc: Global, ordered: &[Test]) -> Result<Vec<u32>, AllocError>
    ensures { IfOk result (λ ends. AreFurthestEnds ordered.now ends.items) }
{
    let mut ends = Vec::new(alloc);
    let mut furthest = 0;
    for i in 0..ordered.len() {
        furthest = ordered[i].end.max(furthest);
        ends.push(furthest)?;
    }
    Ok(ends)
}

/// The place of the first range that begins above the number.
fn first_beyond(ordered: &[Test], number: u32) -> usize
    requires { IsNonDecreasingBy (λ t. t.start) ordered.now }
    ensures within { result ≤ length ordered.now }
    ensures below { (i : ℕ) → i < result → (nth_test ordered.now i).start ≤ number }
    ensures above { (i : ℕ) → result ≤ i → i < length ordered.now → number < (nth_test ordered.now i).start }
{
    let mut low = 0;
    let mut high = ordered.len();
    while low < high {
        let middle = low + (high - low) / 2;
        if ordered[middle].start <= number {
            low = middle + 1;
        } else {
            high = middle;
        }
    }
    low
}

/// Whether one of the ranges holds the number: then one that begins no later ends no earlier.
fn is_covered(ordered: &[Test], ends: &[u32], number: u32) -> bool
    requires order { IsNonDecreasingBy (λ t. t.start) ordered.now }
    requires ends { AreFurthestEnds ordered.now ends.now }
    ensures { IsTrue result ↔ IsCovered ordered.now number }
{
    let beyond = first_beyond(ordered, number);
    beyond > 0 && number <= ends[beyond - 1]
}

/// The greatest ranges that lie each inside or outside every given range, ascending. Together they hold what the
/// given ranges hold.
///
/// Errors: memory ran out.
pub fn remove_overlap(alloc: Global, ranges: &BTreeSet<Test>) -> Result<Vec<Test>, AllocError>
    ensures { IfOk result (λ pieces. AreAlphabetClasses ranges.now.keys pieces.items) }
{
    let cuts = cuts(alloc, ranges)?;
    let ordered = in_order(alloc, ranges)?;
    let ends = furthest_ends(alloc, &ordered)?;
    let mut pieces = Vec::new(alloc);
    for i in 1..cuts.len() {
        let low = cuts[i - 1];
        let high = cuts[i];
        if low < high && is_covered(&ordered, &ends, low as u32) {
            pieces.push(Test {
                start: low as u32,
                end: (high - 1) as u32,
            })?;
        }
    }
    Ok(pieces)
}
