//! Where a call is written in the calls that have it.

ghost use Rattle.std.specs.Prelude.{ℕ, ◌≡◌, ◌∷◌, [], IfErr, IfOk, map, option_map};
ghost use Rattle.lalrpop_grammar.specs.WrittenGrammar.{Origin};
ghost use Rattle.lalrpop_grammar.specs.Views.{alternative_view, condition_view};
ghost use Rattle.lalrpop_grammar_language.specs.Enabled.{choice_of};
ghost use Rattle.lalrpop_grammar_language.specs.Levels.{levels, ranked_choices};
ghost use Rattle.lalrpop_grammar_rules.specs.Details.{choices_view, enabled_rule_view, tighter_in};
ghost use Rattle.lalrpop_grammar_rules.specs.Ranks.{rank_view};
ghost use Rattle.lalrpop_grammar_rules.specs.RuleTable.{IsKept, IsTable, rules_with};
ghost use Rattle.lalrpop_grammar_rules.specs.Views.{binding_of, closed_view};
ghost use Rattle.lalrpop_norm_keys.specs.FoundCalls.{TellsOfOneCall};
ghost use Rattle.lalrpop_norm_keys.specs.Instances.{AreTight, TellsOfSome, kept_from};
ghost use Rattle.lalrpop_norm_keys.specs.MacroFaults.{TellsOfAlternative};
ghost use Rattle.lalrpop_norm_keys.specs.PlaceSearch.{IsFoundInCalls, IsFoundInSides};

use crate::called::unleveled_call;
use crate::conditions::ask_condition;
use crate::places::place_in_symbols;
use lalrpop_grammar_repr::NormFault;
use lalrpop_grammar_rules::closed::{Binding, ClosedSymbol, Finder, right_side};
use lalrpop_grammar_rules::{Choice, EnabledRule, Rules};
use lalrpop_grammar_symbols::Span;
use std::alloc::Global;

/// The place of the call in the alternative, where its condition holds.
fn place_in_side<F: Finder>(
    alloc: Global,
    finder: &F,
    rules: &Rules<'_>,
    rule: &EnabledRule<'_>,
    args: &[ClosedSymbol],
    choice: &Choice<'_>,
    call: &ClosedSymbol,
) -> Result<Option<Span>, NormFault>
    requires table { IsTable rules.now }
    requires kept { IsKept rules.now.features.now rule.now }
    requires tighter { choice.now.tighter ≡ tighter_in
        (levels (enabled_rule_view rules.now.features.now rule.now)) (option_map rank_view choice.now.rank) }
    ensures place { IfOk result (λ found. (o : Origin) → IsFoundInSides (rules_with (F.finds finder.now) rules.now)
        (enabled_rule_view rules.now.features.now rule.now) (binding_of rule.now.written.now.args args.now)
        ((choice_of (o, alternative_view choice.now.alternative.now), option_map rank_view choice.now.rank) ∷ [])
        (closed_view call.now) found) }
    ensures fault { IfErr result (TellsOfAlternative (F.finds finder.now) (F.too_deep finder.now)
        (binding_of rule.now.written.now.args args.now)
        (option_map condition_view choice.now.alternative.now.condition)) }
{
    let binding = Binding {
        parameters: rule.written.args.as_slice(),
        args,
    };
    if !ask_condition(alloc, finder, rules, binding, &choice.alternative.condition)? {
        return Ok(None);
    }
    let side = right_side(alloc, rules, rule, choice, args)?;
    Ok(place_in_symbols(choice.alternative.expr.as_slice(), side.as_slice(), call))
}

/// The place of the call in the alternative, where it is enabled and its condition holds.
fn place_in_choice<F: Finder>(
    alloc: Global,
    finder: &F,
    rules: &Rules<'_>,
    rule: &EnabledRule<'_>,
    args: &[ClosedSymbol],
    choice: &Option<Choice<'_>>,
    call: &ClosedSymbol,
) -> Result<Option<Span>, NormFault>
    requires table { IsTable rules.now }
    requires kept { IsKept rules.now.features.now rule.now }
    requires tight { AreTight (levels (enabled_rule_view rules.now.features.now rule.now))
        (choices_view rule.now.written.now.name.0 0 (choice.now ∷ [])) }
    ensures place { IfOk result (λ found. (k : ℕ) → IsFoundInSides (rules_with (F.finds finder.now) rules.now)
        (enabled_rule_view rules.now.features.now rule.now) (binding_of rule.now.written.now.args args.now)
        (kept_from rule.now.written.now.name.0 k (choice.now ∷ [])) (closed_view call.now) found) }
    ensures fault { IfErr result (TellsOfSome (F.finds finder.now) (F.too_deep finder.now)
        (binding_of rule.now.written.now.args args.now) (kept_from rule.now.written.now.name.0 0 (choice.now ∷ []))) }
{
    match choice {
        Some(choice) => place_in_side(alloc, finder, rules, rule, args, choice, call),
        None => Ok(None),
    }
}

/// The place of the call in the first of the rule's alternatives that has it, of those whose conditions hold for the arguments.
fn place_in_rule<F: Finder>(
    alloc: Global,
    finder: &F,
    rules: &Rules<'_>,
    rule: &EnabledRule<'_>,
    args: &[ClosedSymbol],
    call: &ClosedSymbol,
) -> Result<Option<Span>, NormFault>
    requires table { IsTable rules.now }
    requires kept { IsKept rules.now.features.now rule.now }
    ensures place { IfOk result (IsFoundInSides (rules_with (F.finds finder.now) rules.now)
        (enabled_rule_view rules.now.features.now rule.now) (binding_of rule.now.written.now.args args.now)
        (ranked_choices (enabled_rule_view rules.now.features.now rule.now)) (closed_view call.now)) }
    ensures fault { IfErr result (TellsOfSome (F.finds finder.now) (F.too_deep finder.now)
        (binding_of rule.now.written.now.args args.now)
        (ranked_choices (enabled_rule_view rules.now.features.now rule.now))) }
{
    let choices = rule.choices.as_slice();
    for choice in choices {
        if let Some(span) = place_in_choice(alloc, finder, rules, rule, args, choice, call)? {
            return Ok(Some(span));
        }
    }
    Ok(None)
}

/// The place of the call in the other one, where it stands there. In one at a level nothing stands.
fn place_in_call<F: Finder>(
    alloc: Global,
    finder: &F,
    rules: &Rules<'_>,
    caller: &ClosedSymbol,
    call: &ClosedSymbol,
) -> Result<Option<Span>, NormFault>
    requires table { IsTable rules.now }
    ensures place { IfOk result (IsFoundInCalls (rules_with (F.finds finder.now) rules.now)
        (closed_view caller.now ∷ []) (closed_view call.now)) }
    ensures fault { IfErr result (TellsOfOneCall (rules_with (F.finds finder.now) rules.now) (F.too_deep finder.now)
        (closed_view caller.now ∷ [])) }
{
    let Some(called) = unleveled_call(caller) else {
        return Ok(None);
    };
    let Some(rule) = rules.find(called.name) else {
        return Ok(None);
    };
    if rule.written.args.len() != called.args.len() {
        return Ok(None);
    }
    place_in_rule(alloc, finder, rules, rule, called.args, call)
}

/// The place of the call in the first of these that has it: of the innermost symbol of an alternative that closes to one with the
/// call.
///
/// # Errors
///
/// A condition can't be asked, or memory runs out.
pub(crate) fn place_of_call<F: Finder>(
    alloc: Global,
    finder: &F,
    rules: &Rules<'_>,
    callers: &[ClosedSymbol],
    call: &ClosedSymbol,
) -> Result<Option<Span>, NormFault>
    requires table { IsTable rules.now }
    ensures place { IfOk result (IsFoundInCalls (rules_with (F.finds finder.now) rules.now)
        (map closed_view callers.now) (closed_view call.now)) }
    ensures fault { IfErr result (TellsOfOneCall (rules_with (F.finds finder.now) rules.now) (F.too_deep finder.now)
        (map closed_view callers.now)) }
{
    for caller in callers {
        if let Some(span) = place_in_call(alloc, finder, rules, caller, call)? {
            return Ok(Some(span));
        }
    }
    Ok(None)
}
