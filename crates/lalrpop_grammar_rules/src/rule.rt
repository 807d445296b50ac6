//! Enabled rules, with the levels of their alternatives.

ghost use Rattle.std.specs.Prelude.{◌≡◌, IfOk, IsPermutation, None, filter, map, nat_lt, option_map};
ghost use Rattle.std.specs.List.{list_any};
ghost use Rattle.std.specs.List.Sorted.{IsNonDecreasing};
ghost use Rattle.lalrpop_grammar_symbols.specs.Symbols.{Text};
ghost use Rattle.lalrpop_grammar.specs.Views.{alternative_view, nonterminal_view};
ghost use Rattle.lalrpop_grammar_language.specs.Enabled.{enabled_choices, enabled_rule, at_places};
ghost use Rattle.lalrpop_grammar_language.specs.Levels.{greatest as greatest_of};
ghost use Rattle.lalrpop_grammar_rules.specs.Ranks.{rank_view};
ghost use Rattle.lalrpop_grammar_rules.specs.Details.{IsRanked, details, is_leveled, last_of, ranked_level, levels_in, ranked_choices_from, ranked_view, kept_rule_view, with_tighter_level, tighter_in};

use crate::enabling::{cfg_active, has_attribute};
use crate::levels::{PREC_ATTR, Rank, rank_after};
use lalrpop_grammar::{Alternative, Atom, List, NonterminalData};
use std::alloc::{AllocError, Global};

/// An enabled alternative of a rule.
#[derive(Clone, Copy)]
pub struct Choice<'g> {
    /// The alternative as it is written.
    pub alternative: &'g Alternative,
    /// Its level and side, where the rule has levels and it has one.
    pub rank: Option<Rank>,
    /// The next tighter level of the rule, where it has a level and there is one.
    pub tighter: Option<u32>,
}

/// A rule of the enabled grammar.
#[derive(Drop)]
pub struct EnabledRule<'g> {
    /// The rule as it is written.
    pub written: &'g NonterminalData,
    /// Whether one of its enabled alternatives says a level.
    pub has_levels: bool,
    /// Its loosest level, where it has levels.
    pub loosest: Option<u32>,
    /// Its alternatives by the places at which they are written, counted from 0; none stands where one is disabled.
    pub choices: List<Option<Choice<'g>>>,
}

impl<'g> EnabledRule<'g> {
    /// The rule with the alternatives that the features enable.
    pub(crate) fn new(
        alloc: Global,
        features: &[Atom],
        written: &'g NonterminalData,
    ) -> Result<EnabledRule<'g>, AllocError>
        ensures { IfOk result (λ r. kept_rule_view features.now r
            ≡ details (enabled_rule features.now (nonterminal_view written.now))) }
    {
        let alternatives = written.alternatives.as_slice();
        let has_levels = has_levels(features, alternatives);
        let ranked = with_ranks(alloc, features, alternatives, has_levels)?;
        let levels = sorted_levels(alloc, ranked.as_slice())?;
        let loosest = greatest(levels.as_slice());
        let choices = with_tighter(alloc, ranked.as_slice(), levels.as_slice())?;
        Ok(EnabledRule {
            written,
            has_levels,
            loosest,
            choices,
        })
    }
}

/// Whether one of the enabled alternatives says a level.
fn has_levels(features: &[Atom], alternatives: &[Alternative]) -> bool
    ensures { result ≡ list_any (is_leveled features.now) (map alternative_view alternatives.now) }
{
    for alternative in alternatives {
        if says_level(features, alternative) {
            return true;
        }
    }
    false
}

fn says_level(features: &[Atom], alternative: &Alternative) -> bool
    ensures { result ≡ is_leveled features.now (alternative_view alternative.now) }
{
    let attributes = alternative.attributes.as_slice();
    cfg_active(features, attributes) && has_attribute(PREC_ATTR, attributes)
}

/// An enabled alternative with its rank.
#[derive(Clone, Copy)]
struct Ranked<'g> {
    alternative: &'g Alternative,
    rank: Option<Rank>,
}

/// The alternatives by their places, each enabled one with its rank, where there are levels.
fn with_ranks<'g>(
    alloc: Global,
    features: &[Atom],
    alternatives: &'g [Alternative],
    has_levels: bool,
) -> Result<List<Option<Ranked<'g>>>, AllocError>
    ensures { IfOk result (λ found. (name : Text) → ranked_view name 0 found
        ≡ ranked_choices_from has_levels None (enabled_choices features.now
        (at_places name 0 (map alternative_view alternatives.now)))) }
{
    let mut found = List::new(alloc);
    let mut last = None;
    for alternative in alternatives {
        let choice = ranked_choice(features, alternative, has_levels, last);
        last = last_rank(choice, last);
        found.push(choice)?;
    }
    Ok(found)
}

/// The alternative with its rank after that of the enabled one before it, where it is enabled.
fn ranked_choice<'g>(
    features: &[Atom],
    alternative: &'g Alternative,
    has_levels: bool,
    last: Option<Rank>,
) -> Option<Ranked<'g>>
    ensures { IsRanked features.now (alternative_view alternative.now) has_levels
        (option_map rank_view last) result }
{
    let attributes = alternative.attributes.as_slice();
    if !cfg_active(features, attributes) {
        return None;
    }
    if has_levels {
        let rank = rank_after(last, attributes);
        Some(Ranked { alternative, rank })
    } else {
        Some(Ranked {
            alternative,
            rank: None,
        })
    }
}

/// The last rank, behind the alternative.
fn last_rank(choice: Option<Ranked<'_>>, last: Option<Rank>) -> Option<Rank>
    ensures { result ≡ last_of choice.entry last }
{
    match choice {
        Some(ranked) => ranked.rank,
        None => last,
    }
}

/// The levels of the alternatives, which rise.
fn sorted_levels(alloc: Global, ranked: &[Option<Ranked<'_>>]) -> Result<Vec<u32>, AllocError>
    ensures rising { IfOk result (λ levels. IsNonDecreasing levels.items) }
    ensures same { IfOk result (λ levels. IsPermutation (levels_in ranked.now) levels.items) }
{
    let mut levels = levels(alloc, ranked)?;
    levels.sort_unstable();
    Ok(levels)
}

/// The levels of the alternatives, in the order in which they are written.
fn levels(alloc: Global, ranked: &[Option<Ranked<'_>>]) -> Result<Vec<u32>, AllocError>
    ensures { IfOk result (λ levels. levels.items ≡ levels_in ranked.now) }
{
    let mut levels = Vec::new(alloc);
    for choice in ranked {
        match level_at(choice) {
            Some(level) => levels.push(level)?,
            None => {}
        }
    }
    Ok(levels)
}

fn level_at(choice: &Option<Ranked<'_>>) -> Option<u32>
    ensures { result ≡ ranked_level choice.now }
{
    match choice {
        Some(ranked) => match ranked.rank {
            Some(rank) => Some(rank.level),
            None => None,
        },
        None => None,
    }
}

/// The greatest of the levels, which rise.
fn greatest(levels: &[u32]) -> Option<u32>
    requires { IsNonDecreasing levels.now }
    ensures { result ≡ greatest_of levels.now }
{
    levels.last().copied()
}

/// The greatest of the levels below that one. The levels rise.
fn greatest_below(levels: &[u32], bound: u32) -> Option<u32>
    requires { IsNonDecreasing levels.now }
    ensures { result ≡ greatest_of (filter (λ n. nat_lt n bound) levels.now) }
{
    let below = levels.partition_point(|level| *level < bound);
    levels[..below].last().copied()
}

/// The alternatives by their places, each with the next tighter one of the levels, which rise.
fn with_tighter<'g>(
    alloc: Global,
    ranked: &[Option<Ranked<'g>>],
    levels: &[u32],
) -> Result<List<Option<Choice<'g>>>, AllocError>
    requires { IsNonDecreasing levels.now }
    ensures { IfOk result (λ choices. choices ≡ map (with_tighter_level levels.now) ranked.now) }
{
    let mut choices = List::new(alloc);
    for choice in ranked {
        choices.push(tighten(choice, levels))?;
    }
    Ok(choices)
}

fn tighten<'g>(choice: &Option<Ranked<'g>>, levels: &[u32]) -> Option<Choice<'g>>
    requires { IsNonDecreasing levels.now }
    ensures { result ≡ with_tighter_level levels.now choice.now }
{
    match choice {
        Some(ranked) => Some(Choice {
            alternative: ranked.alternative,
            rank: ranked.rank,
            tighter: tighter_of(ranked.rank, levels),
        }),
        None => None,
    }
}

fn tighter_of(rank: Option<Rank>, levels: &[u32]) -> Option<u32>
    requires { IsNonDecreasing levels.now }
    ensures { result ≡ tighter_in levels.now (option_map rank_view rank) }
{
    match rank {
        Some(rank) => greatest_below(levels, rank.level),
        None => None,
    }
}
