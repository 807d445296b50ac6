//! The alternative that a node names, and what it asks of the node's children.

ghost use Rattle.std.specs.Prelude.{◌≡◌, ◌↔◌, IfErr, IfNone, IfOk, IfSome, IsTrue, List, map, option_map};
ghost use Rattle.lalrpop_grammar_symbols.specs.Symbols.{Closed};
ghost use Rattle.lalrpop_grammar_language.specs.Admitting.{AtMost, Fits, bind, rank_level};
ghost use Rattle.lalrpop_grammar_language.specs.Closing.{right_side as right_side_of};
ghost use Rattle.lalrpop_grammar_rules.specs.RuleTable.{IsTable, rules_with};
ghost use Rattle.lalrpop_grammar_rules.specs.Ranks.{rank_view};
ghost use Rattle.lalrpop_grammar_rules.specs.Views.{closed_view, closeds};
ghost use Rattle.lalrpop_judge.specs.Admitted.{IsRightSideAt};
ghost use Rattle.lalrpop_judge.specs.Faults.{NamesSearch, OnlyWhere};
ghost use Rattle.lalrpop_judge.specs.Placed.{IsChoiceAt, IsPlacedAt, IsPlaced, placed_view, rule_in};

use crate::error::JudgeError;
use lalrpop_grammar::{Atom, List};
use lalrpop_grammar_rules::closed::{Binding, ClosedSymbol, Finder, holds, right_side};
use lalrpop_grammar_rules::{Choice, EnabledRule, Rank, Rules};
use std::alloc::Global;

/// An enabled alternative, with its rule.
#[derive(Clone, Copy)]
pub(crate) struct Placed<'r, 'g> {
    rule: &'r EnabledRule<'g>,
    choice: &'r Choice<'g>,
}

/// The symbols of which the node's children have to be, where the call's alternative at that place may be chosen.
pub(crate) fn chosen_side<F: Finder>(
    alloc: Global,
    rules: &Rules<'_>,
    finder: &F,
    name: &Atom,
    given: &[ClosedSymbol],
    level: Option<u32>,
    place: u32,
) -> Result<Option<List<ClosedSymbol>>, JudgeError>
    requires { IsTable rules.now }
    ensures some { IfOk result (λ found. IfSome found (λ side.
        IsRightSideAt (rules_with (F.finds finder.now) rules.now) name.now (closeds (map closed_view given.now)) level place (map closed_view side))) }
    ensures none { IfOk result (λ found. IfNone found ((side : List Closed) →
        IsRightSideAt (rules_with (F.finds finder.now) rules.now) name.now (closeds (map closed_view given.now)) level place side → ⊥)) }
    ensures fault { IfErr result (OnlyWhere (NamesSearch (rules_with (F.finds finder.now) rules.now) name.now place)) }
{
    let Some(placed) = placed_at(rules, name, place) else {
        return Ok(None);
    };
    if !may_stand(alloc, rules, finder, name, placed, given, level, place)? {
        return Ok(None);
    }
    let side = right_side(alloc, rules, placed.rule, placed.choice, given)?;
    Ok(Some(side))
}

/// The enabled alternative at that place of the rule that the name stands for.
fn placed_at<'r, 'g>(rules: &'r Rules<'g>, name: &Atom, place: u32) -> Option<Placed<'r, 'g>>
    requires { IsTable rules.now }
    ensures { IsPlacedAt rules.now name.now place result }
{
    let Some(rule) = rules.find(name) else {
        return None;
    };
    match choice_at(rule, place) {
        Some(choice) => Some(Placed { rule, choice }),
        None => None,
    }
}

/// The enabled alternative at that place of the rule.
fn choice_at<'r, 'g>(rule: &'r EnabledRule<'g>, place: u32) -> Option<&'r Choice<'g>>
    ensures { IsChoiceAt rule.now.choices place result }
{
    match rule.choices.as_slice().get(place as usize) {
        Some(choice) => match choice {
            Some(choice) => Some(choice),
            None => None,
        },
        None => None,
    }
}

/// Whether the alternative may be chosen for the call: the rule is given as many arguments as it has parameters, the
/// alternative has a level where the rule has levels, and at most the call's, and its condition holds.
fn may_stand<F: Finder>(
    alloc: Global,
    rules: &Rules<'_>,
    finder: &F,
    name: &Atom,
    placed: Placed<'_, '_>,
    given: &[ClosedSymbol],
    level: Option<u32>,
    place: u32,
) -> Result<bool, JudgeError>
    requires { IsPlaced rules.now name.now place placed }
    ensures exact { IfOk result (λ yes. IsTrue yes
        ↔ (Fits (rules_with (F.finds finder.now) rules.now) name.now (closeds (map closed_view given.now))
        (rule_in rules.now placed.entry) (placed_view name.now place placed.entry)
        × AtMost (rank_level (option_map rank_view placed.entry.choice.now.rank)) level)) }
    ensures fault { IfErr result (OnlyWhere (NamesSearch (rules_with (F.finds finder.now) rules.now) name.now place)) }
{
    let parameters = placed.rule.written.args.as_slice();
    if given.len() != parameters.len() {
        return Ok(false);
    }
    if placed.choice.rank.is_some() != placed.rule.has_levels {
        return Ok(false);
    }
    if !at_most(placed.choice.rank, level) {
        return Ok(false);
    }
    let binding = Binding {
        parameters,
        args: given,
    };
    let yes = holds(
        alloc,
        finder,
        rules,
        binding,
        &placed.choice.alternative.condition,
    )?;
    Ok(yes)
}

/// Whether the rank's level is at most that one; there is none where the rule has no levels.
fn at_most(rank: Option<Rank>, level: Option<u32>) -> bool
    ensures { IsTrue result ↔ AtMost (rank_level (option_map rank_view rank)) level }
{
    match (rank, level) {
        (Some(rank), Some(level)) => rank.level <= level,
        (Some(_), None) => false,
        (None, Some(_)) => false,
        (None, None) => true,
    }
}
